ghost use Rattle.std.specs.Prelude.{◌≡◌, ◌<◌, ◌^◌};

use std::marker::Model;

/// A source of numbers that only looks random: the same seed gives the same numbers.
#[derive(Clone, Copy, Debug)]
pub struct Generator {
    state: u32,
}

impl Model for Generator {
    ghost use Rattle.std.specs.Prelude.{ℕ, ◌<◌, ◌^◌};

    ghost Value = { ℕ };

    ghost view = { λ g. g.state };

    ghost invariant = { λ g. g.state < 2 ^ 31 };

    ghost inverse = { λ n. record { state = n } };
}

impl Generator {
    ghost use Rattle.std.specs.Prelude.{◌≡◌, ◌<◌, ◌^◌};
    ghost use Rattle.script_values.specs.Generator.{next_state, drawn};

    /// The generator whose first state is the seed.
    pub fn new(seed: u32) -> Generator
        requires { seed < 2 ^ 31 }
        ensures seed { result ≡ seed }
    {
        Generator { state: seed }
    }

    /// The next number, from 0 to 32767.
    #[tactic(auto, unfolding(crate::specs::Generator::next_state))]
    pub fn draw(&mut self) -> u32
        ensures state { self.new ≡ next_state self.old }
        ensures drawn { result ≡ drawn self.new }
        ensures small { result < 32768 }
    {
        let next = (u64::from(self.state) * 1103515245 + 12345) % 2147483648;
        self.state = next as u32;
        self.state / 65536
    }
}
