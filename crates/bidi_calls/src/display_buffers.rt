//! The buffers that a call for a displayed line fills.

/// The buffers for the parts of a displayed line: its text, the order of its characters, and their places.
///
/// `text` needs an entry for each code unit of the displayed text, `order` one for each displayed character, and
/// `places` one for each character of the line. A call leaves out a part if its buffer is empty. `shown` is for the
/// number of displayed characters, and `characters` for the number of all characters.
#[derive(Drop)]
pub struct DisplayBuffers<'b, U> {
    pub text: &'b mut [U],
    pub order: &'b mut [usize],
    pub places: &'b mut [usize],
    pub shown: &'b mut usize,
    pub characters: &'b mut usize,
}
