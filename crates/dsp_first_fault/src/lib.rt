//! Laws of the first fault of a script's text, each the contract of a function that does nothing.
#![tactic(auto)]

ghost use Rattle.std.specs.Prelude.{◌≡◌, ◌⊎◌, ◌↔◌, ◌+◌, ◌≤◌, ℕ, Some};
ghost use Rattle.std.specs.Prelude.{List, [], ◌∷◌, ◌++◌, length, take};
ghost use Rattle.dsp_defs.specs.declared.limits.TheConstants.{MAX_SCRIPT};
ghost use Rattle.dsp_defs.specs.declared.script_fault.ScriptFault.{ScriptFault};
ghost use Rattle.dsp_defs.specs.declared.script_fault.ScriptKind.TheVariants.{BadByte, Missing};
ghost use Rattle.dsp_defs.specs.Reading.{first_fault};
ghost use Rattle.dsp_defs.specs.Token.{Bad, Item, Open, items};
ghost use Rattle.dsp_script.specs.Plain.{tokens};
ghost use Rattle.dsp_first_fault.specs.Fault.{CanBeEnded, CanGoOn, IsFaultAt, IsFull, Place, room};

/// The first fault of a text is at one of its items, and its offset says at which; or it is at the
/// end, where something is missing. A text that is too long has it at the limit. Its kind is that
/// of a bad byte exactly where the item is one.
pub fn a_fault_has_one_place()
    ensures place { (text : List ℕ) (fault : ScriptFault) → first_fault text ≡ Some fault
        → Place text fault }
    ensures one { (text : List ℕ) (fault : ScriptFault) (front other : List Item) (item it : Item)
        → IsFaultAt text front item fault → IsFaultAt text other it fault
        → (front ≡ other) × (item ≡ it) }
    ensures bad { (text : List ℕ) (front : List Item) (item : Item) (fault : ScriptFault)
        → IsFaultAt text front item fault → (fault.kind ≡ BadByte) ↔ (item.token ≡ Bad) }
{}

/// With the item at which a text has its first fault, nothing can follow: no text whose tokens
/// begin with those up to and with that item reads as a script. Each such text that is not too long
/// has its first fault at that item too, and of the same kind.
pub fn nothing_follows_a_fault()
    ensures nothing { (text : List ℕ) (front : List Item) (item : Item) (fault : ScriptFault)
        → IsFaultAt text front item fault → CanGoOn (tokens front ++ item.token ∷ []) → ⊥ }
    ensures same { (text : List ℕ) (front : List Item) (item : Item) (fault : ScriptFault)
        → IsFaultAt text front item fault → (other : List ℕ) (before back : List Item) (it : Item)
        → items other ≡ before ++ it ∷ back → tokens before ≡ tokens front → it.token ≡ item.token
        → length other ≤ MAX_SCRIPT
        → IsFaultAt other before it (record { offset = it.offset; kind = fault.kind }) }
{}

/// The bytes before the first fault of a text can be ended so that they read as a script, by at
/// most `room` more bytes, where the limit of texts leaves so many. In one case they can't be, and
/// nothing can follow their tokens: within the taps of an `interpolate`, behind so many that no
/// multiple of its factor is left up to `MAX_TAPS`. The items of those bytes are those before the
/// fault. Where something is missing at an item, a brace can stand in its place.
pub fn something_follows_what_is_before()
    ensures before { (text : List ℕ) (front : List Item) (item : Item) (fault : ScriptFault)
        → IsFaultAt text front item fault → items (take fault.offset text) ≡ front }
    ensures ended { (text : List ℕ) (fault : ScriptFault) → first_fault text ≡ Some fault
        → fault.offset + room ≤ MAX_SCRIPT
        → CanBeEnded (take fault.offset text) ⊎ (IsFull (tokens (items (take fault.offset text)))
        × (CanGoOn (tokens (items (take fault.offset text))) → ⊥)) }
    ensures brace { (text : List ℕ) (front : List Item) (item : Item) (fault : ScriptFault)
        → IsFaultAt text front item fault → fault.kind ≡ Missing → fault.offset + room ≤ MAX_SCRIPT
        → CanGoOn (tokens front ++ Open ∷ []) }
{}
