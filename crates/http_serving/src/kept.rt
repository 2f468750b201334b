ghost use Rattle.std.specs.Prelude.{◌≡◌, ◌+◌, ◌^◌, ◌≤◌, ◌<◌, ℕ, Bool, List, [], true, false, drop, length, if◌then◌else◌, sum_by, IfOk, OnOk, OnErr, Some};
ghost use Rattle.http_edge.specs.Responses.{response_text};
ghost use Rattle.http_serving.specs.Kept.{after_asking, after_body, after_asking_first, after_meaning, after_other, emptied, has_meaning, is_for_first, kept_size, place_by_body, place_by_meaning, text_at, text_by_body, text_by_meaning, is_kept_in, AreFew, AreLeft, FitIn, HasKept, HasKeptIn, HaveRoom, IsSentAs, KeepsSent};

use crate::responses::{Answer, Response, SharedResponse, write_out};
use sb_model::{Bytes, OutOfMemory};
use sb_outside::SharedText;
use std::alloc::Global;
use std::marker::Model;

/// The most bytes that the body of a kept answer has: 16 MiB. A longer one is not written out to be kept.
const MOST_KEPT: usize = 16_777_216;

/// The bytes that are counted for the meaning of a request.
const MEANING_SIZE: usize = 256;

/// What a request means, if two requests that mean the same have one answer.
pub trait Meaning {
    // whether two are the same
    ghost same: { Self → Self → Bool };

    // whether an answer to it is kept in the first part
    ghost first: { Self → Bool };

    /// Whether two are the same.
    fn is_same(&self, other: &Self) -> bool
        ensures { result ≡ same self.now other.now };

    /// Whether an answer to it is kept in the first part.
    fn is_for_first(&self) -> bool
        ensures { result ≡ first self.now };
}

/// How many answers a part keeps at most, how many bytes they have in all, which is less than 4 GiB, and how many bytes the text
/// of one has at least. A shorter one would take the place of one that costs more to write.
#[derive(Clone, Copy, Debug)]
pub struct Room {
    pub answers: usize,
    pub bytes: usize,
    pub least: usize,
}

/// An answer that is kept: the body of a request, what the request means if it means something, and the whole text of the response
/// to it, which those hold too to whom it is being sent.
#[derive(Drop)]
pub struct KeptAnswer<M> {
    asked: Bytes,
    meaning: Option<M>,
    text: SharedText,
}

impl<M> KeptAnswer<M> {
    /// How many bytes are counted for it, or some number that is too great.
    fn size(&self) -> usize
        ensures exact { result < 2 ^ 33 → result ≡ kept_size self.now }
        ensures most { result ≤ kept_size self.now }
    {
        self.asked
            .len()
            .saturating_add(self.text.as_slice().len())
            .saturating_add(MEANING_SIZE)
    }
}

impl<M: Meaning> KeptAnswer<M> {
    /// Whether it has a meaning that is the same as this one.
    fn has_meaning(&self, meaning: &M) -> bool
        ensures { result ≡ has_meaning M.same meaning.now self.now.meaning }
    {
        match &self.meaning {
            Some(other) => other.is_same(meaning),
            None => false,
        }
    }
}

/// Whether an answer with this meaning belongs to the first part.
fn is_for_first<M: Meaning>(meaning: &Option<M>) -> bool
    ensures { result ≡ is_for_first M.first meaning.now }
{
    match meaning {
        Some(meaning) => meaning.is_for_first(),
        None => false,
    }
}

/// An answer, with its request copied and its text shared.
fn copied<M: Drop>(
    alloc: Global,
    asked: &[u8],
    meaning: Option<M>,
    text: &SharedText,
) -> Result<KeptAnswer<M>, OutOfMemory>
    ensures { IfOk result (λ kept. kept ≡ record { asked = asked.now; meaning = meaning; text = text.now }) }
{
    Ok(KeptAnswer {
        asked: Bytes::from_slice(alloc, asked)?,
        meaning,
        text: text.share()?,
    })
}

/// Puts the answer at a place behind all others.
fn put_last<M>(answers: &mut [KeptAnswer<M>], place: usize)
    requires { place < length answers.old }
    ensures order { answers.new ≡ after_asking answers.old (Some place) }
    ensures count { length answers.new ≡ length answers.old }
    ensures size { sum_by kept_size answers.new ≡ sum_by kept_size answers.old }
{
    answers[place..].rotate_left(1);
}

/// Whether there are more answers, or more bytes of them, than there is room for.
fn is_past<M>(answers: &[KeptAnswer<M>], bytes: usize, room: Room) -> bool
    ensures past { result ≡ true → sum_by kept_size answers.now ≡ bytes → FitIn answers.now room → ⊥ }
    ensures fits { result ≡ false → sum_by kept_size answers.now ≡ bytes → FitIn answers.now room }
{
    answers.len() > room.answers || bytes > room.bytes
}

/// Lets those go that were asked for least lately, until there is room for the others, and says how many bytes these have.
fn let_go<M: Drop>(answers: &mut Vec<KeptAnswer<M>>, bytes: usize, room: Room) -> usize
    requires limit { room.bytes < 2 ^ 32 }
    requires few { bytes < 2 ^ 33 }
    requires size { sum_by kept_size answers.old.items ≡ bytes }
    ensures few { AreFew answers.new.items result room }
    ensures left { AreLeft answers.old.items answers.new.items room }
{
    let mut left = bytes;
    'kept: while is_past(answers.as_slice(), left, room) {
        let oldest = answers.remove(0);
        left -= oldest.size();
    }
    left
}

/// Answers in the order in which they were asked for, the one asked for least lately first.
#[derive(Drop)]
struct KeptPart<M> {
    answers: Vec<KeptAnswer<M>>,
    // the bytes of all
    bytes: usize,
    room: Room,
}

impl<M> Model for KeptPart<M> {
    ghost use Rattle.http_serving.specs.Kept.{AreFew, KeptPart as Seen};

    ghost Value = { Seen M };

    ghost view = { λ p. record { answers = p.answers.items; room = p.room } };

    ghost invariant = { λ p. AreFew p.answers.items p.bytes p.room };
}

impl<M: Drop> KeptPart<M> {
    /// None yet. It takes no memory.
    fn new(alloc: Global, room: Room) -> Self
        requires { room.bytes < 2 ^ 32 }
        ensures { result ≡ record { answers = []; room = room } }
    {
        KeptPart {
            answers: Vec::new(alloc),
            bytes: 0,
            room,
        }
    }

    /// The place of the first answer to a request with this body.
    fn place_by_body(&self, asked: &[u8]) -> Option<usize>
        ensures { result ≡ place_by_body asked.now self.now.answers }
    {
        self.answers
            .iter()
            .position(|kept| kept.asked.as_slice() == asked)
    }

    /// The text of the answer at a place once more, which is then the one asked for last.
    fn ask(&mut self, place: Option<usize>) -> Result<Option<SharedText>, OutOfMemory>
        ensures text { IfOk result (λ text. text ≡ text_at self.old.answers place) }
        ensures order { OnOk result (self.new ≡ record self.old { answers = after_asking self.old.answers place }) }
        ensures err { OnErr result (self.new ≡ self.old) }
    {
        let Some(place) = place else {
            return Ok(None);
        };
        let Some(kept) = self.answers.get(place) else {
            return Ok(None);
        };
        let text = kept.text.share()?;
        put_last(self.answers.as_mut_slice(), place);
        Ok(Some(text))
    }

    /// Whether the part keeps an answer.
    fn is_keeping(&self, answer: &KeptAnswer<M>) -> bool
        ensures { result ≡ is_kept_in answer.now self.now.room }
    {
        answer.text.as_slice().len() >= self.room.least
            && self.room.answers > 0
            && answer.size() <= self.room.bytes
    }

    /// Keeps an answer, and lets those go that were asked for least lately as far as its room is wanted.
    fn keep(&mut self, answer: KeptAnswer<M>) -> Result<(), OutOfMemory>
        ensures kept { OnOk result (HasKept answer self.old self.new) }
        ensures err { OnErr result (self.new ≡ self.old) }
    {
        if !self.is_keeping(&answer) {
            return Ok(());
        }
        let bytes = self.bytes + answer.size();
        if self.answers.push(answer).is_err() {
            return Err(OutOfMemory);
        }
        self.bytes = let_go(&mut self.answers, bytes, self.room);
        Ok(())
    }

    /// The same of an answer with this text. One that is too short is not copied.
    fn keep_text(
        &mut self,
        alloc: Global,
        asked: &[u8],
        meaning: Option<M>,
        text: &SharedText,
    ) -> Result<(), OutOfMemory>
        ensures kept { OnOk result (HasKept (record { asked = asked.now; meaning = meaning; text = text.now }) self.old self.new) }
        ensures err { OnErr result (self.new ≡ self.old) }
    {
        if text.as_slice().len() < self.room.least {
            return Ok(());
        }
        let answer = copied(alloc, asked, meaning, text)?;
        self.keep(answer)
    }

    /// Lets all go.
    fn forget(&mut self)
        ensures { self.new ≡ record self.old { answers = [] } }
    {
        self.answers.clear();
        self.bytes = 0;
    }
}

impl<M: Meaning> KeptPart<M> {
    /// The place of the first answer with this meaning.
    fn place_by_meaning(&self, meaning: &M) -> Option<usize>
        ensures { result ≡ place_by_meaning M.same meaning.now self.now.answers }
    {
        self.answers
            .iter()
            .position(|kept| kept.has_meaning(meaning))
    }
}

/// Answers that a server made, by the bodies of their requests and by what these mean, in two parts: those whose meaning belongs to
/// the first, and others. In each part the one asked for least lately goes first. Each text has a number of its own.
#[derive(Drop)]
pub struct KeptAnswers<M> {
    alloc: Global,
    // the number of the next text
    number: u64,
    first: KeptPart<M>,
    others: KeptPart<M>,
}

impl<M> Model for KeptAnswers<M> {
    ghost use Rattle.http_serving.specs.Kept.{KeptLists};

    ghost Value = { KeptLists M };

    ghost view = { λ k. record { first = k.first; others = k.others } };
}

impl<M: Meaning + Drop> KeptAnswers<M> {
    /// None yet, with so much room for the first part and for the other. It takes no memory.
    pub fn new(alloc: Global, first: Room, others: Room) -> Self
        requires first { first.bytes < 2 ^ 32 }
        requires others { others.bytes < 2 ^ 32 }
        ensures { result ≡ record { first = record { answers = []; room = first }; others = record { answers = []; room = others } } }
    {
        KeptAnswers {
            alloc,
            number: 0,
            first: KeptPart::new(alloc, first),
            others: KeptPart::new(alloc, others),
        }
    }

    /// A text that several may hold, with the next number.
    fn shared(&mut self, text: Bytes) -> Result<SharedText, OutOfMemory>
        ensures text { IfOk result (λ shared. shared ≡ text) }
        ensures same { self.new ≡ self.old }
    {
        let number = self.number;
        self.number = number.saturating_add(1);
        SharedText::new(self.alloc, number, text)
    }

    /// The text that is kept of an answer to a request with this body.
    pub fn text_by_body(&mut self, asked: &[u8]) -> Result<Option<SharedText>, OutOfMemory>
        ensures text { IfOk result (λ text. text ≡ text_by_body asked.now self.old) }
        ensures order { OnOk result (self.new ≡ after_body asked.now self.old) }
        ensures err { OnErr result (self.new ≡ self.old) }
    {
        let place = self.first.place_by_body(asked);
        if place.is_some() {
            return self.first.ask(place);
        }
        let place = self.others.place_by_body(asked);
        self.others.ask(place)
    }

    /// The text that is kept of an answer to a request with this meaning, if it has one.
    pub fn text_by_meaning(
        &mut self,
        meaning: &Option<M>,
    ) -> Result<Option<SharedText>, OutOfMemory>
        ensures text { IfOk result (λ text. text ≡ text_by_meaning M.same M.first meaning.now self.old) }
        ensures order { OnOk result (self.new ≡ after_meaning M.same M.first meaning.now self.old) }
        ensures err { OnErr result (self.new ≡ self.old) }
    {
        let Some(meaning) = meaning else {
            return Ok(None);
        };
        if meaning.is_for_first() {
            let place = self.first.place_by_meaning(meaning);
            return self.first.ask(place);
        }
        let place = self.others.place_by_meaning(meaning);
        self.others.ask(place)
    }

    /// Keeps an answer in the part of its meaning.
    fn keep(
        &mut self,
        asked: &[u8],
        meaning: Option<M>,
        text: &SharedText,
    ) -> Result<(), OutOfMemory>
        ensures kept { OnOk result (HasKeptIn (record { asked = asked.now; meaning = meaning; text = text.now }) (is_for_first M.first meaning) self.old self.new) }
        ensures err { OnErr result (self.new ≡ self.old) }
    {
        if is_for_first(&meaning) {
            self.first.keep_text(self.alloc, asked, meaning, text)
        } else {
            self.others.keep_text(self.alloc, asked, meaning, text)
        }
    }

    /// The answer that a response is whose text is written out. Its text is shared and kept. If memory for that is refused, the
    /// response is sent as it is.
    fn keep_written(
        &mut self,
        asked: &[u8],
        meaning: Option<M>,
        response: Response,
        text: Bytes,
    ) -> Answer
        requires text { text ≡ response_text response.status response.fields response.body }
        requires cause { response.cause ≡ [] }
        ensures answer { IsSentAs response result }
        ensures kept { KeepsSent M.first asked.now meaning response result self.old self.new }
    {
        let Ok(text) = self.shared(text) else {
            return Answer::Made(response);
        };
        match self.keep(asked, meaning, &text) {
            Ok(()) => Answer::Shared(SharedResponse {
                status: response.status,
                text,
            }),
            Err(OutOfMemory) => Answer::Made(response),
        }
    }

    /// The answer that a response is to a request with this body and this meaning, if it has one. Its text is written out and shared,
    /// and kept if the part of its meaning keeps it: then those go that were asked for least lately, and no more than have to. If the
    /// body has more than 16 MiB or memory is refused, the response is sent as it is and nothing is kept.
    pub fn keep_response(
        &mut self,
        alloc: Global,
        asked: &[u8],
        meaning: Option<M>,
        response: Response,
    ) -> Answer
        requires { response.cause ≡ [] }
        ensures answer { IsSentAs response result }
        ensures kept { KeepsSent M.first asked.now meaning response result self.old self.new }
    {
        if response.body.len() > MOST_KEPT {
            return Answer::Made(response);
        }
        match write_out(alloc, &response) {
            Ok(written) => self.keep_written(asked, meaning, response, written.text),
            Err(OutOfMemory) => Answer::Made(response),
        }
    }

    /// Lets all go if they are no answers any more.
    pub fn forget_if(&mut self, is_past: bool)
        ensures { self.new ≡ (if is_past then emptied self.old else self.old) }
    {
        if is_past {
            self.first.forget();
            self.others.forget();
        }
    }

    /// How many answers are kept. Each part has no more than its room.
    pub fn len(&self) -> usize
        ensures count { result ≡ length self.now.first.answers + length self.now.others.answers }
        ensures room { HaveRoom self.now }
    {
        self.first.answers.len() + self.others.answers.len()
    }
}
