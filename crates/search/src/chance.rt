// Numbers by chance that are the same in every run: Lehmer's sequence, each number 48,271 times the one before, modulo 2^31 - 1.
ghost use Rattle.std.specs.Prelude.{◌<◌};

const MODULUS: u64 = 2_147_483_647;

#[derive(Drop)]
pub struct Chance {
    seed: u64,
}

impl Chance {
    pub fn from_seed(seed: u64) -> Chance {
        Chance { seed }
    }

    // The next number of the sequence, brought below a bound.
    pub fn below(&mut self, bound: u64) -> u64
        requires { 0 < bound }
        ensures { result < bound }
    {
        self.seed = self.seed % MODULUS * 48_271 % MODULUS;
        self.seed / 8 % bound
    }
}
