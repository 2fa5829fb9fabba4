//! The words that the command line takes.
ghost use Rattle.std.specs.Prelude.{◌≤◌, IfSome};
ghost use Rattle.std.proofs.Props.{props};
ghost use Rattle.krl_modes.specs.declared.point.TheConstants.{END};
ghost use Rattle.krl_text.specs.Limits.{max_steps};

use clap::builder::ValueParser;
use clap::{Arg, ArgAction, ArgMatches, Command, Error};
use krl_modes::END;
use krl_text::MAX_STEPS;
use std::alloc::{AllocError, Global};

/// The options of a random run, in their ranges.
#[derive(Clone, Copy)]
pub struct RandomOptions {
    /// What the run draws from.
    pub seed: u64,
    /// How many steps it takes.
    pub steps: u64,
    /// Whether it delivers the oldest messages after each step, until few wait.
    pub busy: bool,
    /// Whether it continues by good rounds then, until nobody waits.
    pub rest: bool,
    /// Whether it reports how far it is, wherever standard error goes.
    pub progress: bool,
    pub ghost in_range: { (seed ≤ END) × (1 ≤ steps) × (steps ≤ max_steps) },
}

/// How the nodes of a run on threads come by their letters.
#[derive(Clone, Copy)]
pub struct NodesOptions {
    /// What it is drawn from which letters are lost, repeated and reordered; None if each is
    /// read once, the oldest first.
    pub policy: Option<u64>,
    pub ghost in_range: { IfSome policy (λ seed. seed ≤ END) } by { Prim.hlevel props },
}

/// The form of a picture.
#[derive(Clone, Copy, PartialEq, Eq)]
pub enum Form {
    /// Plain text of at most 120 columns.
    Text,
    /// A drawing in SVG.
    Svg,
}

/// What a command line asks for.
#[derive(Clone, Copy)]
pub enum Request {
    /// A script from standard input, and its transcript.
    Script,
    /// A script from standard input, and a picture of its run.
    Picture(Form),
    /// A random run; None if its options are out of range, which clap refuses.
    Random(Option<RandomOptions>),
    /// A server and two clients on threads; None if the number of the policy is out of range,
    /// which clap refuses.
    Nodes(Option<NodesOptions>),
}

const WORDS: &str = "\
A script has one request a line, in words with spaces between them. A line that begins with #
is passed over.

  seed K=V ...      makes the world with these entries; before every other word but modes
  fill N            makes the world with the keys 0 to N-1, each its own value, in place of seed
  client C          starts client C, 0 to 63
  lock C P MODE     client C asks for the slot of point P in this mode, as S or RangeS-U
  lock C P MODE HI  the same, and for the slots after it that begin below HI, up to 8 if free
  insert C K V      client C asks for an entry with key K and value V; put changes one
  delete C K        client C asks for the end of the entry with key K
  take insert C K V the same as insert, and takes the lock that it needs if that is free; so for
                    take put and take delete
  scan C LO HI      client C reads its cache from LO on below HI: rows, or the first point it
                    misses, or the key of its write that is pending there
  forget C LO HI    client C gives back what it holds from LO on below HI; lower C LO HI MODE
                    gives back only what is above this mode
  pin C LO HI       client C keeps it, and prints the pin's number; unpin C ID frees that pin
  leave C           client C gives everything back and ends
  tick C            client C repeats what is not answered; nudge C asks the server to
  crash C           client C, or with the word server the server, stops; start server starts one
  deliver I         delivers message I, counted from 1, for the first time or again
  next N            delivers the oldest N waiting messages; settle delivers until none waits
  drop              no message waits any longer
  hold C P          prints what client C holds at point P: its range part and its key part
  status C          prints client C's epoch, last push seen, last lock and last write
  missing           prints the clients that have not reported to the server
  index, writes     print the entries, and the writes that were applied
  check             prints whether what the clients hold is compatible: sound, or unsound and a
                    point
  modes             prints which modes are compatible, and the joins of modes

A number has 1 to 20 digits, or is END (the last point) or TOP (one past it). A value is a number,
which stands for its 8 bytes, or x and 0 to 64 hexadecimal digits, two for each byte. What the
lines print goes to standard output. A line that can't be read ends the script with status 1.";

const RANDOM: &str = "\
A random run begins with the entries 10=1 and 20=2, and takes N steps that are drawn from the seed:
four clients lock, write, scan, give back, start and stop, the server stops and starts, and messages
come late, again or never. After each step the run looks whether what every two clients hold is
compatible at each point from 0 to 63, and whether the rows of a scan are those of the index. Then
the line 'random SEED STEPS sound' is printed, and the status is 0. The same words give the same
run. With --busy messages seldom come late, so the clients do more.

With --rest a sound run goes on: all that is down starts, and good rounds follow, without crashes or
further requests. In each every client ticks, and what was sent in the round before is delivered.
Once nobody waits, 'rest after N rounds' is printed, and the status is 0. If somebody still waits
after 1172 rounds, a line that begins with 'no rest after 1172 rounds' says who waits for what, and
the status is 3.";

const NODES: &str = "\
A server runs on the entries 10=1 and 20=2, and clients 1 and 2 beside it, each on a thread of its
own. Client 1 locks 15, inserts 15=5, forgets what it holds there and leaves. Client 2 locks 15 and
16, and scans its own cache from 11 on below 21 until key 15 is among the rows. Then the line
'rows 15=5 20=2' is printed, and the status is 0. Each client takes at most 10,000 turns, and waits
a millisecond where no letter is there for it. Where one has taken them all, 'nodes gave up' is
printed, and the status is 1, after some fifteen seconds on a machine that does little else.

With --policy N each node reads its letters as is drawn from N: one in eight is lost, two are read
and stay, and any that waits may be the next. A node that finds no letter says again what is not
answered. What client 1 says last may be lost, and it does not say it again: so 'nodes gave up' is
as right an end as the rows.";

// A number from `least` to `most`.
fn number<'a>(
    alloc: Global,
    name: &'a str,
    range: &'a str,
    least: u64,
    most: u64,
    help: &'a str,
) -> Arg<'a> {
    Arg::new(alloc, name)
        .long(name)
        .value_name(range)
        .action(ArgAction::Set)
        .value_parser(ValueParser::unsigned(least, most))
        .help(help)
}

// A word that stands or does not.
fn flag<'a>(alloc: Global, name: &'a str, help: &'a str) -> Arg<'a> {
    Arg::new(alloc, name)
        .long(name)
        .action(ArgAction::SetTrue)
        .help(help)
}

fn nodes_command<'a>(alloc: Global) -> Result<Command<'a>, AllocError> {
    let policy = number(
        alloc,
        "policy",
        "0 to 9223372036854775807",
        0,
        END,
        "Lose, repeat and reorder letters, as drawn from this number",
    );
    Command::new(alloc, "nodes")
        .about("Run a server and two clients, each on a thread of its own, and print a scan's rows")
        .after_help(NODES)
        .arg(policy)
}

fn script_command<'a>(alloc: Global) -> Result<Command<'a>, AllocError> {
    Command::new(alloc, "script")
        .about("Run a script from standard input, and write its transcript to standard output")
        .after_help(WORDS)
        .arg(flag(
            alloc,
            "picture",
            "Write a picture of the run in its place: each message, crash and start, in 120 \
             columns",
        ))?
        .arg(flag(alloc, "svg", "Write that picture as a drawing in SVG"))
}

fn seed_option<'a>(alloc: Global) -> Arg<'a> {
    number(
        alloc,
        "seed",
        "0 to 9223372036854775807",
        0,
        END,
        "What the steps are drawn from",
    )
    .required(true)
}

fn steps_option<'a>(alloc: Global) -> Arg<'a> {
    number(
        alloc,
        "steps",
        "1 to 100000",
        1,
        MAX_STEPS,
        "How many steps are taken, refused ones too",
    )
    .required(true)
}

fn random_command<'a>(alloc: Global) -> Result<Command<'a>, AllocError> {
    Command::new(alloc, "random")
        .about("Drive a world through steps that are drawn, and say whether it stayed sound")
        .after_help(RANDOM)
        .arg(seed_option(alloc))?
        .arg(steps_option(alloc))?
        .arg(flag(
            alloc,
            "busy",
            "Deliver the oldest messages after each step, until at most four wait",
        ))?
        .arg(flag(
            alloc,
            "rest",
            "Go on after the steps until nobody waits, and say after how many rounds",
        ))?
        .arg(flag(
            alloc,
            "progress",
            "Tell of every 10,000th step on standard error, even if it is no terminal",
        ))
}

fn program<'a>(alloc: Global) -> Command<'a> {
    Command::new(alloc, "krl")
        .version("0.1.0")
        .about("A key-range lock server with client range caches")
        .subcommand_required(true)
}

// The command with another one under it.
fn add<'a>(
    command: Command<'a>,
    under: Result<Command<'a>, AllocError>,
) -> Result<Command<'a>, AllocError> {
    command.subcommand(under?)
}

fn commands<'a>(alloc: Global) -> Result<Command<'a>, AllocError> {
    let command = add(program(alloc), script_command(alloc))?;
    let command = add(command, random_command(alloc))?;
    add(command, nodes_command(alloc))
}

// What clap found, which is in the ranges that it was given.
fn random_options(matches: &ArgMatches) -> Option<RandomOptions> {
    let seed = matches.get_one::<u64>("seed")?;
    let steps = matches.get_one::<u64>("steps")?;
    if seed > END || steps == 0 || steps > MAX_STEPS {
        return None;
    }
    Some(RandomOptions {
        seed,
        steps,
        busy: matches.get_flag("busy"),
        rest: matches.get_flag("rest"),
        progress: matches.get_flag("progress"),
    })
}

fn nodes_options(matches: &ArgMatches) -> Option<NodesOptions> {
    let policy = matches.get_one::<u64>("policy");
    match policy {
        Some(seed) if seed > END => None,
        policy => Some(NodesOptions { policy }),
    }
}

fn script_request(matches: &ArgMatches) -> Request {
    if matches.get_flag("svg") {
        Request::Picture(Form::Svg)
    } else if matches.get_flag("picture") {
        Request::Picture(Form::Text)
    } else {
        Request::Script
    }
}

fn request_of(matches: &ArgMatches) -> Request {
    match matches.subcommand() {
        Some(("random", options)) => Request::Random(random_options(options)),
        Some(("nodes", options)) => Request::Nodes(nodes_options(options)),
        Some((_, options)) => script_request(options),
        None => Request::Script,
    }
}

/// Reads the words of a command line, the first of which is the program's name.
///
/// # Errors
///
/// What clap reports of words that it refuses, of `--help` and of `--version`; its kind is
/// `OutOfMemory` if memory ran out.
pub fn read(alloc: Global, words: &[String]) -> Result<Request, Error> {
    let command = commands(alloc)?;
    let matches = command.try_get_matches_from(words)?;
    Ok(request_of(&matches))
}
