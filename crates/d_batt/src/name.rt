//! A short text that is kept in place.

ghost use Rattle.std.specs.Prelude.{◌≡◌, ◌↔◌, ◌≤◌, length, IsSome, IfSome};

use std::marker::Model;

/// A text of 1 to 64 bytes. A contract sees it as the list of its bytes. No call of it takes memory.
#[derive(Drop)]
pub struct Name {
    place: [u8; 64],
    count: u8,
}

impl Model for Name {
    ghost use Rattle.std.specs.Prelude.{List, ℕ, ◌≤◌, take};

    ghost Value = { List ℕ };

    ghost view = { λ a. take a.count a.place };

    ghost invariant = { λ a. (1 ≤ a.count) × (a.count ≤ 64) };
}

impl Name {
    /// The name of these bytes, or None exactly where there are none or more than 64.
    pub fn new(bytes: &[u8]) -> Option<Name>
        ensures range { IsSome result ↔ ((1 ≤ length bytes.now) × (length bytes.now ≤ 64)) }
        ensures value { IfSome result (λ name. name ≡ bytes.now) }
    {
        if bytes.is_empty() || bytes.len() > 64 {
            return None;
        }
        let mut place = [0; 64];
        place[..bytes.len()].copy_from_slice(bytes);
        Some(Name {
            place,
            count: bytes.len() as u8,
        })
    }

    /// Its bytes.
    pub fn bytes(&self) -> &[u8]
        ensures value { result.now ≡ self.now }
        ensures some { 1 ≤ length result.now }
        ensures few { length result.now ≤ 64 }
    {
        &self.place[..self.count as usize]
    }

    /// The same name once more.
    pub fn copied(&self) -> Name
        ensures { result ≡ self.now }
    {
        Name {
            place: self.place,
            count: self.count,
        }
    }
}
