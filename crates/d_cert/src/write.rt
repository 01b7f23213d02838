//! The whole certificate.

ghost use Rattle.std.specs.Prelude.{◌≡◌, ℕ, [], IsTrue};
ghost use Rattle.d_desk.specs.Cause.{HasCause};
ghost use Rattle.d_bill.specs.Slopes.{tiered};
ghost use Rattle.d_bound.specs.Bounders.{IsBounderOf};
ghost use Rattle.d_search.specs.Problems.{IsSearched};
ghost use Rattle.d_certline.specs.Certificates.{Certificate, certificate_text};
ghost use Rattle.d_cert.specs.Saved.{SavesText};
ghost use Rattle.d_cert.specs.Written.{IsCertificateOf};

use crate::found::save_found;
use crate::head::{save_month, save_sizes, save_verdict};
use crate::save::save_counts;
use crate::tree::save_tree;
use d_bill::Problem;
use d_bound::Bounder;
use d_desk::{Desk, DeskFault};
use d_search::Outcome;
use std::alloc::Global;

/// Saves the certificate of what a search found for the problem, which is one of the record of this label, line by line into the open output.
/// The bounder is one of this problem. After an error the output has taken a front of the certificate's text.
pub fn write_certificate<D: Desk>(
    alloc: Global,
    desk: &mut D,
    problem: &Problem,
    label: &str,
    outcome: &Outcome,
    bounder: &mut Bounder,
) -> Result<(), DeskFault>
    requires untiered { tiered problem.now ≡ [] }
    requires searched { (budget : ℕ) × IsSearched problem.now budget outcome.now }
    requires bounder { IsBounderOf problem.now bounder.old }
    requires output { IsTrue (D.output_open desk.old) }
    ensures told { (c : Certificate) → IsCertificateOf problem.now label.now outcome.now c
        → D.tells → SavesText (certificate_text c) (D.scene desk.old) (D.scene desk.new) result }
    ensures bounder { IsBounderOf problem.now bounder.new }
    ensures input { D.input_open desk.new ≡ D.input_open desk.old }
    ensures output { D.output_open desk.new ≡ D.output_open desk.old }
    ensures taken { D.taken desk.new ≡ D.taken desk.old }
    ensures cause { HasCause (D.faults desk.old) (D.faults desk.new) result }
{
    let mut line = Vec::new(alloc);
    save_month(alloc, desk, &mut line, problem, label)?;
    save_sizes(desk, &mut line, problem)?;
    save_verdict(desk, &mut line, outcome.verdict)?;
    save_found(desk, &mut line, problem, outcome)?;
    save_tree(desk, &mut line, problem, &outcome.tree, 0, bounder)?;
    save_counts(desk, &mut line, "end", &[])
}
