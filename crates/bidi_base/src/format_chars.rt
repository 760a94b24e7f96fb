//! The format characters of the algorithm (UAX #9, sections 2.1 to 2.6).

/// ARABIC LETTER MARK
pub const ALM: char = '\u{061C}';

/// LEFT-TO-RIGHT MARK
pub const LRM: char = '\u{200E}';

/// RIGHT-TO-LEFT MARK
pub const RLM: char = '\u{200F}';

/// LEFT-TO-RIGHT EMBEDDING
pub const LRE: char = '\u{202A}';

/// RIGHT-TO-LEFT EMBEDDING
pub const RLE: char = '\u{202B}';

/// POP DIRECTIONAL FORMATTING
pub const PDF: char = '\u{202C}';

/// LEFT-TO-RIGHT OVERRIDE
pub const LRO: char = '\u{202D}';

/// RIGHT-TO-LEFT OVERRIDE
pub const RLO: char = '\u{202E}';

/// LEFT-TO-RIGHT ISOLATE
pub const LRI: char = '\u{2066}';

/// RIGHT-TO-LEFT ISOLATE
pub const RLI: char = '\u{2067}';

/// FIRST STRONG ISOLATE
pub const FSI: char = '\u{2068}';

/// POP DIRECTIONAL ISOLATE
pub const PDI: char = '\u{2069}';
