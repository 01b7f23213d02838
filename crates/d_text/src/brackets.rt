//! How a list in brackets is read, whatever its parts are.

ghost use Rattle.std.specs.Prelude.{◌≡◌, true, false, Some, None};
ghost use Rattle.d_text.specs.Brackets as spec;

/// How far a list is read: nothing yet, up to where a part is to begin, in a part, behind a part's end, up to its closing bracket.
#[derive(Clone, Copy)]
pub enum Stage {
    Start,
    Open,
    Part,
    After,
    Closed,
}

/// What a byte is in a list.
#[derive(Clone, Copy)]
pub enum Role {
    Opening,
    Closing,
    Comma,
    Blank,
    Other,
}

/// What the byte is. Blanks are spaces, tabs, CR and LF.
pub fn role_of(byte: u8) -> Role
    ensures { result ≡ spec.role_of byte }
{
    match byte {
        b'[' => Role::Opening,
        b']' => Role::Closing,
        b',' => Role::Comma,
        b' ' | b'\t' | b'\r' | b'\n' => Role::Blank,
        _ => Role::Other,
    }
}

impl Stage {
    /// The byte that is to be the opening bracket: false where it isn't.
    pub fn open(&mut self, role: Role) -> bool
        ensures goes { result ≡ true → spec.opened role ≡ Some self.new }
        ensures stops { result ≡ false → spec.opened role ≡ None }
    {
        match role {
            Role::Opening => {
                *self = Stage::Open;
                true
            }
            _ => false,
        }
    }

    /// One byte behind the last of `count` complete parts: false where no list of exactly `most` parts goes on so.
    pub fn pass(&mut self, count: usize, most: usize, role: Role) -> bool
        ensures goes { result ≡ true → spec.after_part most count role ≡ Some self.new }
        ensures stops { result ≡ false → spec.after_part most count role ≡ None }
    {
        match role {
            Role::Blank => {
                *self = Stage::After;
                true
            }
            Role::Comma if count < most => {
                *self = Stage::Open;
                true
            }
            Role::Closing if count == most => {
                *self = Stage::Closed;
                true
            }
            _ => false,
        }
    }

    /// Whether the list is read up to its closing bracket.
    pub fn is_closed(self) -> bool
        ensures { result ≡ spec.is_closed self }
    {
        matches!(self, Stage::Closed)
    }
}

impl Role {
    /// Whether the byte is a blank.
    pub fn is_blank(self) -> bool
        ensures { result ≡ spec.is_blank self }
    {
        matches!(self, Role::Blank)
    }
}
