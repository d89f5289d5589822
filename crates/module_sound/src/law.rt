// The law of sound modules. The function takes and answers nothing: its contract is the law.

ghost use Rattle.module_sound.specs.Sounds.{PlacedIsSound};

/// A module without instances, whose signals are graded, and stand at the places of their kinds behind the clock, and
/// whose memories have words and names of their own, can be told by a text, which is well formed.
pub fn placed_is_sound()
    ensures { PlacedIsSound }
{}
