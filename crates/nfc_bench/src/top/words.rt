//! The forms of words that a run has.

ghost use Rattle.std.specs.Prelude.{◌≡◌, ◌≢◌, ◌<◌, ◌^◌, [], ◌∷◌, ℕ, codes, map, string_bytes, IfSome, None};
ghost use Rattle.std.specs.Prelude.{MatchOption};
ghost use Rattle.std.specs.Fmt.{decimal};
ghost use Rattle.nfc_bench.specs.Run.{FormOf};

use super::text::push_number;
use arrayvec::ArrayVec;
use workload::Workload;

/// What the words behind the program's name ask for.
#[derive(Clone, Copy, Debug, PartialEq, Eq)]
pub enum Form {
    /// A run over a script, which reports answers alone or events too.
    Run { quiet: bool },
    /// A run over a script, and one more for each transmission of its last line, in which a Break comes there.
    Sweep,
    /// An audit of a report by the script before it.
    Audit,
    /// A run over the workload of a seed and a count, of which one line tells what came through.
    Make { seed: u16, count: u8 },
}

/// The number below 2^16 that a word spells, without leading zeros or sign, if it does.
fn number_word(word: &str) -> Option<u16>
    ensures { MatchOption result ((n : ℕ) → n < 2 ^ 16 → word.now ≢ decimal n)
        (λ n. (word.now ≡ decimal n) × (n < 2 ^ 16)) }
{
    let Ok(number) = word.parse::<u16>() else {
        return None;
    };
    let mut written = ArrayVec::new();
    push_number(&mut written, number as u32);
    if written.as_slice() == word.as_bytes() {
        Some(number)
    } else {
        None
    }
}

/// The form that asks for a workload whose seed and count these words spell, if they do.
fn form_of_workload(seed: &str, count: &str) -> Option<Form>
    ensures some { IfSome result (λ form. FormOf (codes "make" ∷ seed.now ∷ count.now ∷ []) form) }
    ensures none { result ≡ None → (form : Form) → FormOf (codes "make" ∷ seed.now ∷ count.now ∷ []) form → ⊥ }
{
    let seed = number_word(seed)?;
    let count = number_word(count)?;
    if count > u8::MAX as u16 {
        return None;
    }
    let workload = Workload::new(seed, count as u8)?;
    Some(Form::Make {
        seed: workload.seed(),
        count: workload.count(),
    })
}

/// The form of the words; none where they are of no form that is known.
pub fn form_of(words: &[String]) -> Option<Form>
    ensures some { IfSome result (λ form. FormOf (map string_bytes words.now) form) }
    ensures none { result ≡ None → (form : Form) → FormOf (map string_bytes words.now) form → ⊥ }
{
    match words {
        [run] if run.as_str() == "run" => Some(Form::Run { quiet: false }),
        [run, quiet] if run.as_str() == "run" && quiet.as_str() == "quiet" => {
            Some(Form::Run { quiet: true })
        }
        [make, seed, count] if make.as_str() == "make" => {
            form_of_workload(seed.as_str(), count.as_str())
        }
        [sweep] if sweep.as_str() == "sweep" => Some(Form::Sweep),
        [audit] if audit.as_str() == "audit" => Some(Form::Audit),
        _ => None,
    }
}
