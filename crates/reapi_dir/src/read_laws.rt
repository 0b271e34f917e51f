//! Laws of the grammar of Directory messages and of its refusals. Each of these functions does nothing.
ghost use Rattle.std.specs.Prelude.{◌≡◌, ℕ, List, None};
ghost use Rattle.reapi_dir.specs.declared.message.DirMessage.{DirMessage};
ghost use Rattle.reapi_dir.specs.Grammar.{IsMessage, Spells};
ghost use Rattle.reapi_dir.specs.Reading.{dir_refusal};
ghost use Rattle.reapi_dir.specs.Spelling.{spelled};

/// A message that meets the rules is spelled by its one text, and by no other bytes.
pub fn text_is_one()
    ensures text { (bytes : List ℕ) (message : DirMessage) → Spells bytes message → bytes ≡ spelled message }
    ensures rules { (bytes : List ℕ) (message : DirMessage) → Spells bytes message → IsMessage message }
    ensures back { (message : DirMessage) → IsMessage message → Spells (spelled message) message }
{}

/// Bytes spell a message exactly where they have no refusal, and then one message alone.
pub fn refusals_are_exact(bytes: &[u8])
    ensures free { (message : DirMessage) → Spells bytes.now message → dir_refusal bytes.now ≡ None }
    ensures spelled { dir_refusal bytes.now ≡ None → (message : DirMessage) × Spells bytes.now message }
    ensures one { (first second : DirMessage) → Spells bytes.now first → Spells bytes.now second → first ≡ second }
{
    let _len = bytes.len();
}
