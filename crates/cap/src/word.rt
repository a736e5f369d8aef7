// Slots as words of 64 bits, and lists of them: 0 is vacant, 4,294,967,296 + raw holds an id, and nothing else is a word.
ghost use Rattle.std.specs.Prelude.{◌≡◌};
ghost use Rattle.cap.specs.Word.{word_error_number, word_number, word_values, read_word, slot_of, word_of, is_word, words_read, slot_at};
ghost use Rattle.shown.specs.Shown.{shown};

use crate::CapId;
use crate::slot::Slot;
use laws::refusals;
use shown::{Answer, Shown};

const PRESENT: u64 = 4294967296;

pub type WordAnswer = Result<Slot, WordError>;

#[derive(Clone, Copy, PartialEq, Eq)]
pub enum WordError {
    BadWord = refusals::BAD_WORD as isize,
}

impl Answer for WordError {
    ghost number_of = { word_error_number };

    fn shown(self) -> Shown {
        Shown::new(self as u8, &[])
    }
}

// A word that reads shows no values: the call that it is for does.
impl Answer for Slot {
    fn shown(self) -> Shown {
        Shown::new(refusals::NONE, &[])
    }
}

// What a line shows of a word that was read.
pub fn word_shown(answer: WordAnswer) -> Shown
    ensures { result ≡ shown (word_number answer) (word_values answer) }
{
    answer.shown()
}

#[tactic(auto, unfolding(crate::specs::Word::read_word, laws::specs::Pick::pick))]
pub fn read_word(word: u64) -> WordAnswer
    ensures { result ≡ read_word word }
{
    if word == 0 {
        Ok(Slot::VACANT)
    } else if word / PRESENT == 1 {
        Ok(Slot::holding(CapId::from_raw((word % PRESENT) as u32)))
    } else {
        Err(WordError::BadWord)
    }
}

// The slot that a word stands for, vacant where it does not read.
#[tactic(auto, unfolding(crate::specs::Word::or_vacant))]
pub fn slot_of(word: u64) -> Slot
    ensures { result ≡ slot_of word }
{
    read_word(word).unwrap_or(Slot::VACANT)
}

#[tactic(auto, unfolding(crate::specs::Word::word_of, laws::specs::Pick::pick))]
pub fn word_of(slot: Slot) -> u64
    ensures { result ≡ word_of slot }
{
    if slot.present {
        PRESENT + slot.id.raw as u64
    } else {
        0
    }
}

fn is_word(word: u64) -> bool
    ensures { result ≡ is_word word }
{
    (word == 0) | (word / PRESENT == 1)
}

// Whether every word of the list reads. No word ends the walk early: so it goes through several words at once.
pub fn words_read(list: &[u64]) -> bool
    ensures { result ≡ words_read list.now }
{
    let mut ok = true;
    for word in list {
        ok &= is_word(*word);
    }
    ok
}

// What the list holds at `i`: vacant past its end.
#[tactic(auto, unfolding(crate::specs::Word::or_vacant, crate::specs::Word::read_word, laws::specs::Pick::pick))]
pub fn slot_at(list: &[u64], i: usize) -> Slot
    ensures { result ≡ slot_at list.now i }
{
    let Some(word) = list.get(i) else {
        return Slot::VACANT;
    };
    slot_of(*word)
}
