//! The numbers that a seed gives.

ghost use Rattle.std.specs.Prelude.{◌≡◌, ◌<◌};
ghost use Rattle.input_maker.specs.Generator.{drawn, next_state};

const MULTIPLIER: u64 = 1_103_515_245;

const INCREMENT: u64 = 12_345;

const MODULUS: u64 = 2_147_483_648;

// The lower bits of a state repeat soon, so a draw leaves them out.
const LOWER_BITS: u32 = 65_536;

// A linear congruential generator.
#[derive(Debug, Drop)]
pub(crate) struct Generator {
    pub(crate) state: u32,
}

impl Generator {
    // The generator that begins with a seed.
    pub(crate) fn new(seed: u32) -> Generator
        ensures { result.state ≡ seed }
    {
        Generator { state: seed }
    }

    #[tactic(auto, unfolding(crate::specs::Generator::next_state))]
    fn step(&mut self)
        ensures { self.new.state ≡ next_state self.old.state }
    {
        let sum = u64::from(self.state) * MULTIPLIER + INCREMENT;
        self.state = (sum % MODULUS) as u32;
    }

    // The next number, from 0 up to one below the bound.
    #[tactic(auto, unfolding(crate::specs::Generator::drawn))]
    pub(crate) fn draw(&mut self, below: u32) -> u32
        requires { 0 < below }
        ensures state { self.new.state ≡ next_state self.old.state }
        ensures number { result ≡ drawn below self.old.state }
        ensures below { result < below }
    {
        self.step();
        self.state / LOWER_BITS % below
    }
}
