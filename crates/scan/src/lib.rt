// The scan of a table for the first word that breaks a rule, whatever the rule.
#![tactic(auto)]

ghost use Rattle.std.specs.Prelude.{◌≡◌, ℕ, Bool, List, length};
ghost use Rattle.rulebook.specs.Table.{Part as RulebookPart, table_length};
ghost use Rattle.rulebook.specs.Reasons.{lowest};
ghost use Rattle.scan.specs.Judging.{Judges};

use words::parts::Part;
use words::table::Table;

// The place of the first word that does not keep the rule by which `keeps` judges each part; the length where none does.
pub fn first_broken<F: Fn(Part) -> bool>(t: &Table, keeps: F) -> usize
    requires whole { length t.now.words ≡ table_length t.now.words }
    requires callable { F.IsAlwaysCallable keeps }
    ensures { (rule : List ℕ → RulebookPart → Bool) → Judges (F.post keeps) rule t.now.words → result ≡ lowest rule t.now.words }
{
    let end = t.length();
    'scan: {
        for i in 0..end {
            if !keeps(t.part(i)) {
                break 'scan i;
            }
        }
        end
    }
}
