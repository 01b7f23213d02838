//! What a row of a battery file is.

ghost use Rattle.std.specs.Prelude.{◌≡◌};
ghost use Rattle.std.specs.List.{list_all};
ghost use Rattle.d_batt.specs.Kinds as spec;

use crate::setting::{Setting, is_word, setting_of};

/// What a row of a battery file is.
#[derive(Clone, Copy)]
pub enum Kind {
    /// It sets a number of the battery.
    Sets(Setting),
    /// It has a mode.
    HasMode,
}

/// What a row is by its first two cells, or None where they are none that a row may have.
pub(crate) fn kind_of(kind: &[u8], name: &[u8]) -> Option<Kind>
    ensures { result ≡ spec.kind_of kind.now name.now }
{
    if is_word(kind, "set") {
        return Some(Kind::Sets(setting_of(name)?));
    }
    if is_word(kind, "mode") && is_mode_name(name) {
        return Some(Kind::HasMode);
    }
    None
}

/// Whether these are 1 to 32 ASCII letters, digits, underscores or minuses.
fn is_mode_name(name: &[u8]) -> bool
    ensures { result ≡ spec.is_mode_name name.now }
{
    !name.is_empty() && name.len() <= 32 && has_name_bytes(name)
}

/// Whether these are ASCII letters, digits, underscores or minuses.
fn has_name_bytes(name: &[u8]) -> bool
    ensures { result ≡ list_all spec.is_name_byte name.now }
{
    name.iter().all(|byte| byte.is_ascii_alphanumeric() || *byte == b'_' || *byte == b'-')
}
