//! Lists of items, as they are split.

ghost use Rattle.std.specs.Prelude.{◌≡◌, ◌≢◌, ◌+◌, ◌-◌, ◌^◌, ◌<◌, ◌≤◌, All, true, false, Some, None, OnOk, OnErr, IfErr, [], ◌∷◌, ◌++◌, length, take};
ghost use Rattle.d_text.specs.Brackets as spec;
ghost use Rattle.d_text.specs.Brackets.{IsListScan};
ghost use Rattle.d_text.specs.declared.brackets.Stage.TheVariants.{Part};
ghost use Rattle.d_text.specs.declared.brackets.Role.TheVariants.{Other};
ghost use Rattle.d_text.specs.Grid.{IsListOf, IsListFault};

use crate::brackets::{Role, Stage, role_of};
use crate::grid::GridFault;

/// A part of a cell, from `from` up to before `to`.
#[derive(Clone, Copy)]
pub struct Span {
    /// The place of its first byte, from 0.
    pub from: usize,
    /// The place behind its last byte.
    pub to: usize,
}

/// How far a list of items is read: where its complete items stand is at the front of `spans`, and `span` is the next so far.
#[derive(Clone, Copy)]
pub struct ListScan {
    /// What was read last.
    pub stage: Stage,
    /// How many items are complete, from 0 to 12.
    pub count: usize,
    /// Where the next item stands so far.
    pub span: Span,
    /// Where the complete items stand, at the front.
    pub spans: [Span; 12],
}

impl ListScan {
    /// Nothing is read.
    fn start() -> ListScan
        ensures room { IsListScan result }
        ensures unread { spec.list_level result ≡ spec.list_reader.start }
    {
        let span = Span { from: 0, to: 0 };
        ListScan {
            stage: Stage::Start,
            count: 0,
            span,
            spans: [span; 12],
        }
    }

    /// The byte at `place` of the cell: false where no list goes on so.
    fn step(&mut self, place: usize, byte: u8) -> bool
        requires room { IsListScan self.old }
        requires place { place < 2 ^ 64 - 1 }
        ensures room { result ≡ true → IsListScan self.new }
        ensures goes { result ≡ true → spec.list_reader.next place (spec.list_level self.old) byte ≡ Some (spec.list_level self.new) }
        ensures stops { result ≡ false → spec.list_reader.next place (spec.list_level self.old) byte ≡ None }
    {
        let role = role_of(byte);
        match self.stage {
            Stage::Start => self.stage.open(role),
            Stage::Open => role.is_blank() || self.byte(place, place, role),
            Stage::Part => self.byte(self.span.from, place, role) || self.end(role),
            Stage::After => self.stage.pass(self.count, 12, role),
            Stage::Closed => false,
        }
    }

    /// One more byte of the next item, which begins at `from`: false where it is none of an item.
    fn byte(&mut self, from: usize, place: usize, role: Role) -> bool
        requires place { place < 2 ^ 64 - 1 }
        ensures goes { result ≡ true → role ≡ Other }
        ensures read { result ≡ true → self.new ≡ record (self.old) { stage = Part; span = record { from = from; to = place + 1 } } }
        ensures stops { result ≡ false → role ≢ Other }
        ensures same { result ≡ false → self.new ≡ self.old }
    {
        match role {
            Role::Other => {
                self.stage = Stage::Part;
                self.span = Span {
                    from,
                    to: place + 1,
                };
                true
            }
            _ => false,
        }
    }

    /// The next item is complete, and the byte stands behind it: false where no list goes on so.
    fn end(&mut self, role: Role) -> bool
        requires room { self.old.count < 12 }
        ensures room { result ≡ true → IsListScan self.new }
        ensures goes { let spans = take self.old.count self.old.spans ++ self.old.span ∷ [] in
            result ≡ true → spec.next_behind 12 spans (Some self.old.span) role ≡ Some (spec.list_level self.new) }
        ensures stops { result ≡ false → spec.after_part 12 (self.old.count + 1) role ≡ None }
    {
        self.spans[self.count] = self.span;
        self.count += 1;
        self.stage.pass(self.count, 12, role)
    }
}

/// Where the twelve items of the list in the cell stand. An item is one or more bytes with no comma, bracket, space, tab or line end. The
/// list stands in brackets as a grid's lists do, with blanks and refusals as there.
pub fn split_list(cell: &[u8], spans: &mut [Span; 12]) -> Result<(), GridFault>
    ensures value { OnOk result (IsListOf cell.now spans.new) }
    ensures within { OnOk result (All (λ span. span.from < span.to) spans.new) }
    ensures ends { OnOk result (All (λ span. span.to ≤ length cell.now) spans.new) }
    ensures fault { IfErr result (λ fault. IsListFault cell.now fault.place) }
    ensures same { OnErr result (spans.new ≡ spans.old) }
{
    let mut scan = ListScan::start();
    for place in 0..cell.len() {
        if !scan.step(place, cell[place]) {
            return Err(GridFault { place });
        }
    }
    if scan.stage.is_closed() {
        *spans = scan.spans;
        Ok(())
    } else {
        Err(GridFault { place: cell.len() })
    }
}
