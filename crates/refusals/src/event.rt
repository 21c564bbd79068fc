// The event word with its fields, each of which it says is the word's.
ghost use Rattle.std.specs.Prelude.{◌≡◌, ◌<◌};
ghost use Rattle.rulebook.specs.Events.{event_kind, event_owner, event_index, event_value, event_zero};

use words::bits;

#[derive(Clone, Copy)]
pub struct Event {
    pub word: u32,
    pub kind: u32,
    pub owner: u32,
    pub index: u32,
    pub value: u32,
    pub zero: u32,
    ghost kind_read: { kind ≡ event_kind word },
    ghost owner_read: { owner ≡ event_owner word },
    ghost index_read: { index ≡ event_index word },
    ghost value_read: { value ≡ event_value word },
    ghost zero_read: { zero ≡ event_zero word },
    ghost kind_small: { kind < 16 },
    ghost owner_small: { owner < 16 },
    ghost index_small: { index < 256 },
    ghost value_small: { value < 256 },
    ghost zero_small: { zero < 256 },
}

impl From<u32> for Event {
    ghost from_gives = { λ w e. e.word ≡ w };

    fn from(word: u32) -> Event {
        Event {
            word,
            kind: bits::<0, 4>(word),
            owner: bits::<4, 4>(word),
            index: bits::<8, 8>(word),
            value: bits::<16, 8>(word),
            zero: bits::<24, 8>(word),
        }
    }
}
