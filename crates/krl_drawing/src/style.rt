//! The colors of a drawing, in light and dark, and the arrow's tip.

/// What stands in a drawing before anything that is drawn.
pub const STYLE: &str = "<style>\n\
    svg { font: 12px ui-monospace, monospace;\n\
    --ground: #fff; --text: #1c1f23; --note: #767d86; --life: #c3c8ce;\n\
    --again: #2f78c4; --lost: #c62828;\n\
    --reads: #2f78c4; --updates: #b98309; --inserts: #3f8f55; --writes: #7a4fb0; }\n\
    @media (prefers-color-scheme: dark) { svg {\n\
    --ground: #16181b; --text: #e4e6e9; --note: #9097a0; --life: #454b52;\n\
    --again: #7db6f0; --lost: #ff6b60;\n\
    --reads: #5aa0e6; --updates: #dfab3a; --inserts: #62b97a; --writes: #a883dc; } }\n\
    .ground { fill: var(--ground); }\n\
    text { fill: var(--text); }\n\
    .note, .quiet text { fill: var(--note); }\n\
    .life { stroke: var(--life); stroke-width: 2; }\n\
    .arrow line, .cross { stroke: var(--text); fill: none; }\n\
    .quiet line { stroke: var(--note); }\n\
    .again line { stroke: var(--again); }\n\
    .lost line, .unread line { stroke: var(--lost); stroke-dasharray: 4 3; }\n\
    .lost .cross, .unread .cross { stroke: var(--lost); }\n\
    .tip { fill: context-stroke; }\n\
    .mark { fill: var(--text); }\n\
    .reads { fill: var(--reads); }\n\
    .updates { fill: var(--updates); }\n\
    .inserts { fill: var(--inserts); }\n\
    .writes { fill: var(--writes); }\n\
    </style>\n\
    <defs><marker id=\"tip\" refX=\"8\" refY=\"4\" markerWidth=\"8\" markerHeight=\"8\" \
    orient=\"auto\"><path class=\"tip\" d=\"M0,0L8,4L0,8z\"/></marker></defs>\n";
