//! What holds of the limits and of what is printed: each function's contract is a law, and its body
//! is empty.
ghost use Rattle.std.specs.Prelude.{◌≡◌};
ghost use Rattle.std.specs.List.{flat_map};
ghost use Rattle.krl_text.specs.declared.limits.TheConstants.{MAX_TEXT, MAX_LINES, MAX_LINE};
ghost use Rattle.krl_text.specs.declared.limits.TheConstants.{MAX_DELIVERIES, MAX_TURNS, MAX_STEPS};
ghost use Rattle.krl_text.specs.Limits.{max_text, max_lines, max_line, max_deliveries};
ghost use Rattle.krl_text.specs.Limits.{max_turns, max_interruptions, max_steps};
ghost use Rattle.krl_text.specs.Printing.{line_of, modes_lines, tables_of_modes};

/// The code's limits are the numerals of the definitions.
pub fn limits_are_the_numerals()
    ensures text { MAX_TEXT ≡ max_text }
    ensures lines { MAX_LINES ≡ max_lines }
    ensures line { MAX_LINE ≡ max_line }
    ensures deliveries { MAX_DELIVERIES ≡ max_deliveries }
    ensures turns { (MAX_TURNS ≡ max_turns) × (MAX_TURNS ≡ max_interruptions) }
    ensures steps { MAX_STEPS ≡ max_steps }
{}

/// The word `modes` prints the tables of modes, as they are written out.
pub fn modes_prints_the_tables()
    ensures { modes_lines ≡ flat_map line_of tables_of_modes }
{}
