// How a call is refused: a number, the index of the word concerned, and the part that found the fault.
ghost use Rattle.std.specs.Prelude.{◌≡◌, Some};
ghost use Rattle.words.specs.declared.refusal.Refusal.{Refusal};
ghost use Rattle.words.specs.declared.refusal.CatalogueFault.TheVariants as catalogue;
ghost use Rattle.words.specs.declared.refusal.ImageFault.TheVariants as image;
ghost use Rattle.words.specs.declared.refusal.AnswerFault.TheVariants as answer;
ghost use Rattle.words.specs.declared.refusal.ClosingFault.TheVariants as closing;
ghost use Rattle.words.specs.declared.refusal.QuestionFault.TheVariants as question;
ghost use Rattle.words.specs.declared.refusal.NamesFault.TheVariants as names;
ghost use Rattle.words.specs.Refusals.{Says, refusal, part_name, refusal_text, list_told, serial_told, catalogue_told, image_told, answer_told, closing_told, question_told, code_told, list_refusal, image_of_names, answer_of_names};

use std::fmt;

// The part of the finder that checks a rule.
#[derive(Clone, Copy, PartialEq, Eq, Debug)]
pub enum Part {
    Lists,
    Serial,
    Kind,
    Line,
    Closing,
    Question,
    Image,
    Answer,
    Code,
}

impl Part {
    pub fn name(self) -> &'static str
        ensures { result.now ≡ part_name self }
    {
        match self {
            Part::Lists => "lists",
            Part::Serial => "serial",
            Part::Kind => "kind",
            Part::Line => "line",
            Part::Closing => "closing",
            Part::Question => "question",
            Part::Image => "image",
            Part::Answer => "answer",
            Part::Code => "code",
        }
    }
}

impl fmt::Display for Part {
    ghost output = { λ part. Some (part_name part) };

    fn fmt<W: fmt::Write>(&self, f: &mut fmt::Formatter<W>) -> fmt::Result {
        f.write_str(self.name())
    }
}

// What the outside is told: the number stands in the protocol, so it is no enum.
#[derive(Clone, Copy, PartialEq, Eq, Debug)]
pub struct Refusal {
    pub number: u8,
    pub index: usize,
    pub part: Part,
}

impl Refusal {
    fn new(number: u8, index: usize, part: Part) -> Refusal
        ensures { result ≡ refusal number index part }
    {
        Refusal {
            number,
            index,
            part,
        }
    }
}

impl fmt::Display for Refusal {
    ghost output = { λ told. Some (refusal_text told) };

    fn fmt<W: fmt::Write>(&self, f: &mut fmt::Formatter<W>) -> fmt::Result {
        let Refusal {
            number,
            index,
            part,
        } = self;
        write!(f, "refused {number} at {index} by {part}")
    }
}

// What every fault can tell. A trait and not From, since callers of any fault need the refusal as a function of it.
pub trait Fault {
    ghost told: { Self → Refusal };

    fn refusal(&self) -> Refusal
        ensures { result ≡ told self.now };
}

// A list handed in is shorter than the call needs.
#[derive(Clone, Copy, PartialEq, Eq, Debug)]
pub enum ListFault {
    Short,
}

// A serial is 0 or too large; with the index of its word.
#[derive(Clone, Copy, PartialEq, Eq, Debug)]
pub enum SerialFault {
    Range(usize),
}

// Where a fault can be met at several words, it has the word's index.
#[derive(Clone, Copy, PartialEq, Eq, Debug)]
pub enum CatalogueFault {
    Serial(SerialFault),
    KindStands,
    Full,
    KindMissing(usize),
    KindHasLine,
    OwnParent(usize),
    LineStands,
    LinesFull(usize),
    LineMissing,
}

#[derive(Clone, Copy, PartialEq, Eq, Debug)]
pub enum ImageFault {
    List(ListFault),
    Catalogue(CatalogueFault),
    NotEmpty,
    NotDue(usize),
}

#[derive(Clone, Copy, PartialEq, Eq, Debug)]
pub enum AnswerFault {
    List(ListFault),
    Serial(SerialFault),
    NotAnswer(usize),
}

// A line of kinds leads back to where it began.
#[derive(Clone, Copy, PartialEq, Eq, Debug)]
pub enum ClosingFault {
    List(ListFault),
    Ring,
}

#[derive(Clone, Copy, PartialEq, Eq, Debug)]
pub enum QuestionFault {
    List(ListFault),
    Catalogue(CatalogueFault),
    Open,
    WordCount,
    NotQuestionWord(usize),
    TooDeep(usize),
    TooFew(usize),
    NotOneLeft,
}

// A place past the end of a code.
#[derive(Clone, Copy, PartialEq, Eq, Debug)]
pub enum CodeFault {
    PastWidth,
}

// In a run of names: a bad serial, or not the name that is due.
#[derive(Clone, Copy, PartialEq, Eq, Debug)]
pub enum NamesFault {
    Serial(SerialFault),
    NotDue(usize),
}

impl Fault for ListFault {
    ghost told = { list_told };

    fn refusal(&self) -> Refusal {
        Refusal::new(1, 0, Part::Lists)
    }
}

impl Fault for SerialFault {
    ghost told = { serial_told };

    fn refusal(&self) -> Refusal {
        match *self {
            SerialFault::Range(index) => Refusal::new(2, index, Part::Serial),
        }
    }
}

impl Fault for CatalogueFault {
    ghost told = { catalogue_told };

    fn refusal(&self) -> Refusal {
        match *self {
            CatalogueFault::Serial(fault) => fault.refusal(),
            CatalogueFault::KindStands => Refusal::new(3, 0, Part::Kind),
            CatalogueFault::Full => Refusal::new(4, 0, Part::Kind),
            CatalogueFault::KindMissing(index) => Refusal::new(5, index, Part::Kind),
            CatalogueFault::KindHasLine => Refusal::new(6, 0, Part::Kind),
            CatalogueFault::OwnParent(index) => Refusal::new(7, index, Part::Line),
            CatalogueFault::LineStands => Refusal::new(8, 0, Part::Line),
            CatalogueFault::LinesFull(index) => Refusal::new(9, index, Part::Line),
            CatalogueFault::LineMissing => Refusal::new(10, 0, Part::Line),
        }
    }
}

impl Fault for ImageFault {
    ghost told = { image_told };

    fn refusal(&self) -> Refusal {
        match *self {
            ImageFault::List(fault) => fault.refusal(),
            ImageFault::Catalogue(fault) => fault.refusal(),
            ImageFault::NotEmpty => Refusal::new(18, 0, Part::Image),
            ImageFault::NotDue(index) => Refusal::new(19, index, Part::Image),
        }
    }
}

impl Fault for AnswerFault {
    ghost told = { answer_told };

    fn refusal(&self) -> Refusal {
        match *self {
            AnswerFault::List(fault) => fault.refusal(),
            AnswerFault::Serial(fault) => fault.refusal(),
            AnswerFault::NotAnswer(index) => Refusal::new(20, index, Part::Answer),
        }
    }
}

impl Fault for ClosingFault {
    ghost told = { closing_told };

    fn refusal(&self) -> Refusal {
        match *self {
            ClosingFault::List(fault) => fault.refusal(),
            ClosingFault::Ring => Refusal::new(11, 0, Part::Closing),
        }
    }
}

impl Fault for QuestionFault {
    ghost told = { question_told };

    fn refusal(&self) -> Refusal {
        match *self {
            QuestionFault::List(fault) => fault.refusal(),
            QuestionFault::Catalogue(fault) => fault.refusal(),
            QuestionFault::Open => Refusal::new(12, 0, Part::Question),
            QuestionFault::WordCount => Refusal::new(13, 0, Part::Question),
            QuestionFault::NotQuestionWord(index) => Refusal::new(14, index, Part::Question),
            QuestionFault::TooDeep(index) => Refusal::new(15, index, Part::Question),
            QuestionFault::TooFew(index) => Refusal::new(16, index, Part::Question),
            QuestionFault::NotOneLeft => Refusal::new(17, 0, Part::Question),
        }
    }
}

impl Fault for CodeFault {
    ghost told = { code_told };

    fn refusal(&self) -> Refusal {
        Refusal::new(21, 0, Part::Code)
    }
}

// Written out, as each has to say which variant `?` makes.
impl From<SerialFault> for CatalogueFault {
    ghost from_gives = { λ x y. y ≡ catalogue.Serial x };

    fn from(fault: SerialFault) -> CatalogueFault {
        CatalogueFault::Serial(fault)
    }
}

impl From<CatalogueFault> for ImageFault {
    ghost from_gives = { λ x y. y ≡ image.Catalogue x };

    fn from(fault: CatalogueFault) -> ImageFault {
        ImageFault::Catalogue(fault)
    }
}

impl From<ListFault> for ImageFault {
    ghost from_gives = { λ x y. y ≡ image.List x };

    fn from(fault: ListFault) -> ImageFault {
        ImageFault::List(fault)
    }
}

impl From<ListFault> for AnswerFault {
    ghost from_gives = { λ x y. y ≡ answer.List x };

    fn from(fault: ListFault) -> AnswerFault {
        AnswerFault::List(fault)
    }
}

impl From<ListFault> for ClosingFault {
    ghost from_gives = { λ x y. y ≡ closing.List x };

    fn from(fault: ListFault) -> ClosingFault {
        ClosingFault::List(fault)
    }
}

impl From<ListFault> for QuestionFault {
    ghost from_gives = { λ x y. y ≡ question.List x };

    fn from(fault: ListFault) -> QuestionFault {
        QuestionFault::List(fault)
    }
}

impl From<CatalogueFault> for QuestionFault {
    ghost from_gives = { λ x y. y ≡ question.Catalogue x };

    fn from(fault: CatalogueFault) -> QuestionFault {
        QuestionFault::Catalogue(fault)
    }
}

impl From<SerialFault> for NamesFault {
    ghost from_gives = { λ x y. y ≡ names.Serial x };

    fn from(fault: SerialFault) -> NamesFault {
        NamesFault::Serial(fault)
    }
}

impl From<NamesFault> for ImageFault {
    ghost from_gives = { λ x y. y ≡ image_of_names x };

    fn from(fault: NamesFault) -> ImageFault {
        match fault {
            NamesFault::Serial(serial) => ImageFault::Catalogue(CatalogueFault::Serial(serial)),
            NamesFault::NotDue(index) => ImageFault::NotDue(index),
        }
    }
}

impl From<NamesFault> for AnswerFault {
    ghost from_gives = { λ x y. y ≡ answer_of_names x };

    fn from(fault: NamesFault) -> AnswerFault {
        match fault {
            NamesFault::Serial(serial) => AnswerFault::Serial(serial),
            NamesFault::NotDue(index) => AnswerFault::NotAnswer(index),
        }
    }
}

// Refuses a list of this length where so many elements are needed.
pub fn need(length: usize, needed: usize) -> Result<(), ListFault>
    ensures { Says list_told result (list_refusal length needed) }
{
    if length < needed {
        return Err(ListFault::Short);
    }
    Ok(())
}
