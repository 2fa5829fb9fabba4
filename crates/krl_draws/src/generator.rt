//! What a random run draws.
ghost use Rattle.std.specs.Prelude.{◌≡◌, ◌<◌};
ghost use Rattle.krl_draws.specs.Generator as draw;

use krl_messages::{Value, WriteOp};
use krl_modes::Mode;
use krl_steps::{Command, Step};
use rand_core::SeedableRng;
use rand_core::utils::NextWord;
use rand_pcg::Lcg64Xsh32;
use std::marker::Model;

/// What a random run sees of its world.
#[derive(Clone, Copy)]
pub struct Observed {
    /// The number of the oldest message that waits.
    pub waiting: Option<u64>,
    /// How many messages were sent.
    pub sent: u64,
    /// Whether no server runs.
    pub is_down: bool,
}

/// Which writes a random run draws.
#[derive(Clone, Copy)]
pub enum Writes {
    /// Plain ones, which need a lock that the client holds.
    Plain,
    /// Every other one also takes the lock that it needs.
    Taking,
}

/// A generator, and what its words stand for.
#[derive(Drop)]
pub struct Generator {
    generator: Lcg64Xsh32,
}

impl Model for Generator {
    ghost use Rattle.rand_pcg.specs.Lcg.{Lcg};

    ghost Value = { Lcg };

    ghost view = { λ d. d.generator };
}

impl Generator {
    /// The draws of a seed.
    pub fn new(seed: u64) -> Generator
        ensures { result ≡ draw.generator_of seed }
    {
        Generator {
            generator: Lcg64Xsh32::seed_from_u64(seed),
        }
    }

    /// A number below n: the next word modulo n.
    #[tactic(auto, unfolding(crate::specs::Generator::below))]
    pub fn below(&mut self, n: u64) -> u64
        requires { 0 < n }
        ensures drawn { (result, self.new) ≡ draw.below n self.old }
        ensures low { result < n }
    {
        u64::from(self.generator.next_word()) % n
    }

    fn client(&mut self) -> u64
        ensures { (result, self.new) ≡ draw.client self.old }
    {
        self.below(4)
    }

    fn point(&mut self) -> u64
        ensures drawn { (result, self.new) ≡ draw.point self.old }
        ensures low { result < 32 }
    {
        self.below(32)
    }

    // A value of 0 to 32 bytes.
    fn value(&mut self) -> Value
        ensures { (result, self.new) ≡ draw.value self.old }
    {
        let len = self.below(33) as usize;
        let mut bytes = [0; 32];
        for i in 0..len {
            bytes[i] = self.below(256) as u8;
        }
        Value::new(&bytes[..len]).unwrap()
    }

    // A span of one to eight points.
    fn span(&mut self) -> (u64, u64)
        ensures { (result, self.new) ≡ draw.span self.old }
    {
        let lo = self.point();
        let more = self.below(8);
        (lo, lo + 1 + more)
    }

    fn mode(&mut self) -> Mode
        ensures { (result, self.new) ≡ draw.a_mode self.old }
    {
        let number = self.below(13);
        Mode::ALL[number as usize]
    }

    // The oldest message is delivered; if none waits, a client ticks.
    fn oldest(&mut self, waiting: Option<u64>) -> Step
        ensures { (result, self.new) ≡ draw.oldest waiting self.old }
    {
        match waiting {
            Some(number) => Step::Deliver(number),
            None => Step::Tick(self.client()),
        }
    }

    // Any message is delivered, if any was sent.
    fn any(&mut self, sent: u64) -> Option<Step>
        ensures { (result, self.new) ≡ draw.any sent self.old }
    {
        if sent == 0 {
            return None;
        }
        let before = self.below(sent);
        Some(Step::Deliver(1 + before))
    }

    fn lock(&mut self) -> Step
        ensures { (result, self.new) ≡ draw.lock self.old }
    {
        let client = self.client();
        let point = self.point();
        let mode = self.mode();
        let more = self.below(8);
        let hi = point + 1 + more;
        Step::Command(client, Command::Lock { point, hi, mode })
    }

    // A client asks for the change; where writes may take, every other time for the lock that it
    // needs too.
    fn write(&mut self, writes: Writes, op: WriteOp) -> Command
        ensures { (result, self.new) ≡ draw.written writes op self.old }
    {
        match writes {
            Writes::Taking if self.below(2) == 0 => Command::Seize(op),
            _ => Command::Write(op),
        }
    }

    fn insert(&mut self, writes: Writes) -> Step
        ensures { (result, self.new) ≡ draw.insert writes self.old }
    {
        let client = self.client();
        let key = self.point();
        let value = self.value();
        let what = self.write(writes, WriteOp::Insert { key, value });
        Step::Command(client, what)
    }

    fn put(&mut self, writes: Writes) -> Step
        ensures { (result, self.new) ≡ draw.put writes self.old }
    {
        let client = self.client();
        let key = self.point();
        let value = self.value();
        let what = self.write(writes, WriteOp::Put { key, value });
        Step::Command(client, what)
    }

    fn delete(&mut self, writes: Writes) -> Step
        ensures { (result, self.new) ≡ draw.delete writes self.old }
    {
        let client = self.client();
        let key = self.point();
        let what = self.write(writes, WriteOp::Delete { key });
        Step::Command(client, what)
    }

    fn scan(&mut self) -> Step
        ensures { (result, self.new) ≡ draw.scan self.old }
    {
        let client = self.client();
        let (lo, hi) = self.span();
        Step::Command(client, Command::Scan { lo, hi })
    }

    fn forget(&mut self) -> Step
        ensures { (result, self.new) ≡ draw.forget self.old }
    {
        let client = self.client();
        let (lo, hi) = self.span();
        Step::Command(
            client,
            Command::Lower {
                lo,
                hi,
                keep: Mode::N,
            },
        )
    }

    // A client crashes or ticks.
    fn crash(&mut self) -> Step
        ensures { (result, self.new) ≡ draw.crash self.old }
    {
        let client = self.client();
        if self.below(8) == 0 {
            Step::CrashClient(client)
        } else {
            Step::Tick(client)
        }
    }

    // A server that is down starts; one that runs may crash.
    fn server(&mut self, is_down: bool) -> Option<Step>
        ensures { (result, self.new) ≡ draw.server is_down self.old }
    {
        if is_down {
            return Some(Step::StartServer);
        }
        if self.below(8) == 0 {
            Some(Step::CrashServer)
        } else {
            None
        }
    }

    // The step of a kind, of which there are twenty.
    #[tactic(auto, unfolding(crate::specs::Generator::of_kind))]
    fn of_kind(&mut self, kind: u64, seen: &Observed, writes: Writes) -> Option<Step>
        ensures { (result, self.new) ≡ draw.of_kind seen.now writes kind self.old }
    {
        match kind {
            0..=5 => Some(self.oldest(seen.waiting)),
            6 | 7 => self.any(seen.sent),
            8 | 9 => Some(self.lock()),
            10 => Some(self.insert(writes)),
            11 => Some(self.put(writes)),
            12 => Some(self.delete(writes)),
            13 => Some(self.scan()),
            14 => Some(self.forget()),
            15 => Some(Step::Tick(self.client())),
            16 => Some(Step::Nudge(self.client())),
            17 => Some(Step::StartClient(self.client())),
            18 => Some(self.crash()),
            _ => self.server(seen.is_down),
        }
    }

    /// The next step, or none.
    pub fn step(&mut self, seen: &Observed, writes: Writes) -> Option<Step>
        ensures { (result, self.new) ≡ draw.drawn seen.now writes self.old }
    {
        let kind = self.below(20);
        self.of_kind(kind, seen, writes)
    }
}
