//! How many boxes a search may make.

ghost use Rattle.std.specs.Prelude.{◌≡◌, ◌↔◌, IsSome, IfSome};
ghost use Rattle.d_words.specs.Words.{IsBoxCount};

use std::marker::Model;

/// The most boxes that a search may make. Our own rule: from 1 to 65535. A contract sees it as their number.
#[derive(Clone, Copy)]
pub struct Budget(u32);

impl Model for Budget {
    ghost use Rattle.std.specs.Prelude.{ℕ};
    ghost use Rattle.d_words.specs.Words.{IsBoxCount};

    ghost Value = { ℕ };

    ghost view = { λ budget. budget.0 };

    ghost invariant = { λ budget. IsBoxCount budget.0 };

    ghost inverse = { λ boxes. record { 0 = boxes } };
}

impl Budget {
    /// So many boxes, or None exactly where that isn't from 1 to 65535.
    pub fn new(boxes: u64) -> Option<Budget>
        ensures range { IsSome result ↔ IsBoxCount boxes }
        ensures value { IfSome result (λ budget. budget ≡ boxes) }
    {
        if boxes >= 1 && boxes <= 65535 {
            Some(Budget(boxes as u32))
        } else {
            None
        }
    }

    /// How many boxes these are.
    pub fn boxes(self) -> u32
        ensures value { result ≡ self }
        ensures range { IsBoxCount result }
    {
        self.0
    }
}
