//! Texts put together at random from words and sentences.

use crate::languages::{CODE, CODE_WITH_CONTROLS, Language};
use crate::random::Random;
use std::alloc::{AllocError, Global};

/// The number of sentences of a language.
const SENTENCES: usize = 1_024;

/// A sentence in both encodings.
#[derive(Drop)]
struct Sentence {
    text: String,
    units: Vec<u16>,
}

/// Sentences of one language.
#[derive(Drop)]
pub struct Sentences {
    sentences: Vec<Sentence>,
}

impl Sentences {
    /// Returns random sentences of a language.
    pub fn new(
        alloc: Global,
        random: &mut Random,
        language: &Language,
    ) -> Result<Sentences, AllocError> {
        let mut sentences = Vec::with_capacity(alloc, SENTENCES)?;
        for _ in 0..SENTENCES {
            let mut text = String::new(alloc);
            push_sentence(&mut text, random, language)?;
            let units = text.as_str().encode_utf16().collect(alloc)?;
            sentences.push(Sentence { text, units })?;
        }
        Ok(Sentences { sentences })
    }

    // Returns one of them, if there are any.
    fn one(&self, random: &mut Random) -> Option<&Sentence> {
        if self.sentences.is_empty() {
            return None;
        }
        self.sentences.get(random.below(self.sentences.len()))
    }
}

// Appends a sentence of three to fourteen words.
fn push_sentence(
    text: &mut String,
    random: &mut Random,
    language: &Language,
) -> Result<(), AllocError> {
    for _ in 0..random.below(12) + 2 {
        push_word(text, random, language)?;
        text.push_str(language.gap)?;
    }
    push_word(text, random, language)?;
    text.push_str(language.stop)
}

// Appends a word, or now and then what comes between words.
fn push_word(
    text: &mut String,
    random: &mut Random,
    language: &Language,
) -> Result<(), AllocError> {
    let pieces = if random.one_in(9) {
        language.inserts
    } else {
        language.words
    };
    text.push_str(random.piece(pieces))
}

// Returns how many sentences a paragraph has: mostly one to nine, now and then up to forty.
fn sentences_in_paragraph(random: &mut Random) -> usize {
    if random.one_in(16) {
        random.below(40)
    } else {
        random.below(9) + 1
    }
}

/// Returns a document of so many paragraphs.
pub fn document(
    alloc: Global,
    random: &mut Random,
    sentences: &Sentences,
    paragraphs: usize,
) -> Result<String, AllocError> {
    let mut text = String::new(alloc);
    for _ in 0..paragraphs {
        for _ in 0..sentences_in_paragraph(random) {
            if let Some(sentence) = sentences.one(random) {
                text.push_str(sentence.text.as_str())?;
            }
        }
        text.push_str("\n")?;
    }
    Ok(text)
}

/// Returns a document of so many paragraphs in UTF-16.
pub fn document_utf16(
    alloc: Global,
    random: &mut Random,
    sentences: &Sentences,
    paragraphs: usize,
) -> Result<Vec<u16>, AllocError> {
    let mut text = Vec::new(alloc);
    for _ in 0..paragraphs {
        for _ in 0..sentences_in_paragraph(random) {
            if let Some(sentence) = sentences.one(random) {
                text.extend_from_slice(sentence.units.as_slice())?;
            }
        }
        text.push(0x0A)?;
    }
    Ok(text)
}

/// Replaces `text` by a short text: one to six words, or sometimes a sentence.
pub fn write_message(
    text: &mut String,
    random: &mut Random,
    language: &Language,
) -> Result<(), AllocError> {
    text.clear();
    if random.one_in(20) {
        return push_sentence(text, random, language);
    }
    push_word(text, random, language)?;
    for _ in 0..random.below(6) {
        text.push_str(language.gap)?;
        push_word(text, random, language)?;
    }
    Ok(())
}

// What is before and after a piece that a program inserts.
static AROUND: [(&str, &str); 6] = [
    ("\u{2068}", "\u{2069}"),
    ("\u{2068}", "\u{2069}"),
    ("(\u{2067}", "\u{2069})"),
    ("\u{202B}", "\u{202C}"),
    ("\u{200F}", "\u{200E}"),
    ("[\u{2066}", "\u{2069}]"),
];

// Appends a piece of one language, with what is around it.
fn push_inserted(
    text: &mut String,
    random: &mut Random,
    language: &Language,
) -> Result<(), AllocError> {
    let (front, behind) = AROUND[random.below(AROUND.len())];
    text.push_str(front)?;
    push_word(text, random, language)?;
    text.push_str(behind)
}

/// Returns a page of so many paragraphs. In each, a program has inserted pieces of one language among words of another,
/// with isolates, embeddings, marks and brackets around them.
pub fn page(
    alloc: Global,
    random: &mut Random,
    languages: &[&'static Language],
    paragraphs: usize,
) -> Result<String, AllocError> {
    let mut text = String::new(alloc);
    if languages.is_empty() {
        return Ok(text);
    }
    for _ in 0..paragraphs {
        let language = languages[random.below(languages.len())];
        let other = languages[random.below(languages.len())];
        for _ in 0..random.below(5) + 1 {
            for _ in 0..random.below(6) + 1 {
                push_word(&mut text, random, language)?;
                text.push_str(" ")?;
            }
            push_inserted(&mut text, random, other)?;
            text.push_str(language.stop)?;
        }
        text.push_str("\r\n")?;
    }
    Ok(text)
}

/// Returns a source file of so many lines.
pub fn source_file(
    alloc: Global,
    random: &mut Random,
    lines: usize,
) -> Result<Vec<char>, AllocError> {
    let mut file = Vec::new(alloc);
    for _ in 0..lines {
        push_chars(
            &mut file,
            random.piece(&["", "    ", "    ", "        ", "            "]),
        )?;
        if random.one_in(100) {
            push_chars(&mut file, random.piece(&CODE_WITH_CONTROLS))?;
        }
        push_chars(&mut file, random.piece(&CODE))?;
        push_chars(&mut file, "\n")?;
    }
    Ok(file)
}

fn push_chars(file: &mut Vec<char>, piece: &str) -> Result<(), AllocError> {
    for c in piece.chars() {
        file.push(c)?;
    }
    Ok(())
}

// The shape of a hostile text: what it begins with, and two pieces that are repeated, one often and one seldom.
struct Shape {
    front: &'static str,
    often: &'static str,
    seldom: &'static str,
}

static SHAPES: [Shape; 14] = [
    Shape {
        front: "",
        often: "\u{2067}",
        seldom: "\u{2066}",
    },
    Shape {
        front: "א",
        often: "\u{2068}",
        seldom: "\u{2069}",
    },
    Shape {
        front: "",
        often: "\u{2067}\u{2069}",
        seldom: "a\u{2066}א\u{2069}",
    },
    Shape {
        front: "a",
        often: "\u{202B}",
        seldom: "\u{202A}",
    },
    Shape {
        front: "",
        often: "\u{202A}\u{202B}",
        seldom: "\u{202C}",
    },
    Shape {
        front: "",
        often: "\u{202E}א\u{202C}",
        seldom: "\u{202D}",
    },
    Shape {
        front: "aא",
        often: "(",
        seldom: "[",
    },
    Shape {
        front: "aא",
        often: "([a])",
        seldom: "(א",
    },
    Shape {
        front: "",
        often: "aא",
        seldom: "אa",
    },
    Shape {
        front: "א",
        often: "a1",
        seldom: "א,",
    },
    Shape {
        front: "א",
        often: "\u{0301}",
        seldom: "(\u{0301}",
    },
    Shape {
        front: "א",
        often: "1,",
        seldom: "+\u{AD}",
    },
    Shape {
        front: "a",
        often: "\u{2069}\u{202C}",
        seldom: "א",
    },
    Shape {
        front: "",
        often: "\u{2068}א\u{2069}",
        seldom: "\u{2068}a\u{2069}",
    },
];

/// Returns a hostile text: one paragraph of so many pieces. Texts of one shape are alike, but not the same.
pub fn hostile(
    alloc: Global,
    random: &mut Random,
    shape: usize,
    pieces: usize,
) -> Result<String, AllocError> {
    let Shape {
        front,
        often,
        seldom,
    } = &SHAPES[shape % SHAPES.len()];
    let mut text = String::new(alloc);
    text.push_str(front)?;
    for _ in 0..pieces {
        let piece = if random.one_in(16) { seldom } else { often };
        text.push_str(piece)?;
    }
    Ok(text)
}

/// Returns the number of shapes.
pub fn shapes() -> usize {
    SHAPES.len()
}
