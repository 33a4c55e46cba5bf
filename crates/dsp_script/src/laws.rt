//! Laws of the script language, each the contract of a function that does nothing.

ghost use Rattle.std.specs.Prelude.{◌≡◌, ◌≤◌, ◌%◌, ◌↔◌, ℕ, List, None, length, true};
ghost use Rattle.dsp_defs.specs.declared.limits.TheConstants.{MAX_SCRIPT};
ghost use Rattle.dsp_defs.specs.declared.script.Script.{Script};
ghost use Rattle.dsp_defs.specs.Grammar.{IsSound, Reads};
ghost use Rattle.dsp_defs.specs.Reading.{first_fault};
ghost use Rattle.dsp_defs.specs.Canon.{canon};
ghost use Rattle.dsp_defs.specs.Shape.{is_legal, unit};
ghost use Rattle.dsp_defs.specs.Token.{items};
ghost use Rattle.dsp_script.specs.Plain.{plain_tokens, tokens};

/// A text reads as at most one script, and as one exactly where it has no first fault.
pub fn one_reading()
    ensures one { (text : List ℕ) (s t : Script) → Reads text s → Reads text t → s ≡ t }
    ensures faultless { (text : List ℕ) → ((s : Script) × Reads text s) ↔ (first_fault text ≡ None) }
{}

/// The canonical text of a sound script is read back as that script, where it has at most
/// `MAX_SCRIPT` bytes.
pub fn canonical_text_is_read_back()
    ensures { (s : Script) → IsSound s → length (canon s) ≤ MAX_SCRIPT → Reads (canon s) s }
{}

/// A text without its tables, with the numbers of a table in braces wherever a block names it, reads
/// as the same script, where it has at most `MAX_SCRIPT` bytes.
pub fn tables_are_their_numbers()
    ensures { (text plain : List ℕ) (s : Script) (reads : Reads text s)
        → tokens (items plain) ≡ plain_tokens reads.tables (items text) s
        → length plain ≤ MAX_SCRIPT → Reads plain s }
{}

/// The block unit is at least 1 and divides each legal block length, where there is one; and it is a legal length
/// itself where it is at least 1. So it is 0 exactly where no block length is legal.
pub fn unit_divides_legal_lengths()
    ensures divides { (s : Script) (length : ℕ) → IsSound s
        → is_legal s.input.channels s.blocks length ≡ true
        → (1 ≤ unit s.input.channels s.blocks) × (length % unit s.input.channels s.blocks ≡ 0) }
    ensures legal { (s : Script) → 1 ≤ unit s.input.channels s.blocks
        → is_legal s.input.channels s.blocks (unit s.input.channels s.blocks) ≡ true }
{}
