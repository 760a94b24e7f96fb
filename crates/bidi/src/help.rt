//! What `--help` writes.
use bidi_arguments::refusal::Subcommand;

const PROGRAM: &str = "bidi: the Unicode Bidirectional Algorithm for text in UTF-8\n\
    \n\
    usage: bidi check [OPTION..] [--] [FILE..]\n\
    \u{20}      bidi show [OPTION..] [--] [FILE..]\n\
    \u{20}      bidi explain [--base auto|ltr|rtl] [--html] [--width N] [--files | --line] [--] [TEXT..]\n\
    \u{20}      bidi --help | --version\n\
    \n\
    check    finds direction controls and marks that make a line display differently from how\n\
    \u{20}        it reads\n\
    show     writes lines from left to right, for a terminal without bidirectional support\n\
    explain  shows each step of the algorithm for a text\n\
    \n\
    'bidi check --help' lists the arguments of check, and likewise for show and explain.\n\
    --help (or -h) and --version (or -V) must be the only argument.\n\
    \n\
    Without files or texts, all three read standard input. Its name as a file is -.\n\
    Put -- before files or texts that may begin with -.\n\
    \n\
    Status: 0 nothing was found, or all was written\n\
    \u{20}       1 check found something\n\
    \u{20}       2 the arguments are wrong; an argument, a name or a file is not UTF-8; check did not\n\
    \u{20}         open a pipe, a socket or a device; explain --line found no such line\n\
    \u{20}       3 out of memory\n\
    \u{20}       4 reading or writing failed, or there was no memory for the arguments\n\
    If several apply, the highest counts.\n";

const CHECK: &str = "usage: bidi check [OPTION..] [--] [FILE..]\n\
    \n\
    Finds the direction controls that have no match on their line, and the lines that controls\n\
    or marks make display differently from how they read. Both can make source code display\n\
    differently from how it is compiled. Writes a line for each, such as\n\
    \n\
    main.c:7:18: U+202E RIGHT-TO-LEFT OVERRIDE is not closed on its line\n\
    main.c:9:3: U+2067 RIGHT-TO-LEFT ISOLATE is on a line displayed differently from how it reads\n\
    main.c:9:3: note: displayed as: return 0; if (a)\n\
    \n\
    with file, line and column. Lines and columns count from 1, columns in characters.\n\
    \n\
    --any         finds every direction control and mark too, also those that have a match\n\
    --gate        for builds and hooks: finds what --any finds, searches what --text and --hidden\n\
    \u{20}             search, follows no link, and reports what it does not open\n\
    --letters     also finds lines that letters alone make display differently from how they read\n\
    --unmatched   finds only controls that have no match\n\
    --only KIND,..\n\
    \u{20}             finds only these kinds: displayed-differently, letters-alone, not-closed,\n\
    \u{20}             closes-nothing, present; --except KIND,.. leaves out these kinds. Write both\n\
    \u{20}             after --any, --gate or --unmatched\n\
    --hidden      also searches hidden files below a directory, whose names begin with a dot\n\
    --follow      follows each link that a directory or LIST names, and with --gate also FILE\n\
    --text        also searches binary files, which have a NUL in their first 8,000 bytes\n\
    --files-from LIST\n\
    \u{20}             also searches the files that LIST names; - is standard input\n\
    --allow LIST  leaves out what LIST allows: each of its lines is PATH, PATH:LINE, a directory\n\
    \u{20}             with / at its end for all files below it, a pattern with *, ** or ?, or a\n\
    \u{20}             comment that begins with #. After a tab it may name kinds, as in\n\
    \u{20}             not-closed,present, and after one more the digest of the line, as in\n\
    \u{20}             #9f86d081884c7d659a2feaa0c55ad015. The kinds not-utf8 and link are for a file\n\
    \u{20}             as a whole. An entry that allows nothing is reported\n\
    --strict-allow\n\
    \u{20}             such an entry counts as a finding\n\
    --write-allow FILE\n\
    \u{20}             writes a list of all that is found to FILE, in place of the report; - is\n\
    \u{20}             standard output\n\
    --format text|json|sarif\n\
    \u{20}             writes lines of text (the default), lines of JSON, or SARIF 2.1.0\n\
    --color auto|always|never\n\
    \u{20}             writes text in colours and shows the lines of the files: auto, the default, if\n\
    \u{20}             standard output is a terminal and NO_COLOR is not set\n\
    --quiet       writes no finding; the status says whether there are any\n\
    --help        writes this text, if it is the only argument after check\n\
    --            ends the options: what follows are files\n\
    FILE          a file, or a directory for all files below it; - is standard input\n\
    \n\
    Without FILE and LIST, reads standard input. NUL bytes separate the names in LIST, or line\n\
    feeds if it has no NUL. Without --follow, links below a directory and in LIST are not\n\
    followed. In LIST, the name of a link's target is searched.\n\
    \n\
    A file is in UTF-8, or in UTF-16 with a byte order mark. Any other file is searched too, but\n\
    it is reported, and the status is 2.\n\
    \n\
    A gate, such as a hook or a build step, that accepts no control uses --gate:\n\
    \n\
    git ls-files -z | bidi check --gate --files-from -\n\
    \n\
    Without --any or --gate, marks pass, and controls that are closed on their line, if its\n\
    ASCII displays as it reads, or as it would without them.\n\
    \n\
    Status: 0 nothing was found; 1 something was found; 'bidi --help' lists the others.\n\
    A gate accepts 0 and no other.\n";

const SHOW: &str = "usage: bidi show [OPTION..] [--] [FILE..]\n\
    \n\
    Writes the lines of files from left to right, for a terminal without bidirectional\n\
    support. Keeps what a reader takes for one character together, mirrors characters at odd\n\
    levels, and leaves out direction controls. A tab becomes spaces up to the next multiple of\n\
    eight columns.\n\
    \n\
    --base auto|ltr|rtl\n\
    \u{20}             the direction of each line: ltr is left to right, rtl is right to left, and\n\
    \u{20}             auto, the default, takes it from the first strong character of the line\n\
    --width N     cuts a line that takes more than N columns, after white space if it can, and\n\
    \u{20}             leaves out white space at the end of each line; N has one to three digits.\n\
    \u{20}             In a terminal, the default is COLUMNS of the environment, or 80\n\
    --moves clusters|marks|characters\n\
    \u{20}             what is moved as a whole: a grapheme cluster (the default), a character with\n\
    \u{20}             its nonspacing marks, or a character\n\
    --mirror yes|no\n\
    \u{20}             whether characters are mirrored at odd levels; yes is the default\n\
    --controls drop|keep\n\
    \u{20}             whether the twelve direction controls, LRM, RLM and ALM among them, are left\n\
    \u{20}             out (the default) or written\n\
    --widths clusters|characters\n\
    \u{20}             the columns of a grapheme cluster: those of one sign, or the sum of those of\n\
    \u{20}             its characters (the default)\n\
    --ambiguous narrow|wide\n\
    \u{20}             whether East Asian ambiguous characters take one column (the default) or two\n\
    --plain       moves each character by itself, mirrors none and leaves out no direction\n\
    \u{20}             control; --moves, --mirror, --controls, --widths and --ambiguous then have no\n\
    \u{20}             effect\n\
    --help        writes this text, if it is the only argument after show\n\
    --            ends the options: what follows are files\n\
    FILE          a file in UTF-8; - or no file at all is standard input\n\
    \n\
    Of a file that is not UTF-8, writes the lines before the first byte that is not, and reports\n\
    that byte. The status is 2.\n\
    \n\
    Status: 0 all was written; 'bidi --help' lists the others.\n";

const EXPLAIN: &str =
    "usage: bidi explain [--base auto|ltr|rtl] [--html] [--width N] [--files | --line] [--] [TEXT..]\n\
    \n\
    Writes a table for each line of each text, with a row for each step of the rules and a\n\
    column for each character. Cells are separated by tabs.\n\
    \n\
    --base   the direction of each line: ltr is left to right, rtl is right to left, and auto,\n\
    \u{20}        the default, takes it from the first strong character of the line\n\
    --html   writes one page of HTML instead of tables\n\
    --width  splits a table into blocks that fit N columns; N has one to three digits\n\
    --files  reads the files that the arguments name; - is standard input\n\
    --line   reads the lines of files that the arguments name, each as FILE:LINE or\n\
    \u{20}        FILE:LINE:COLUMN, as bidi check writes them; - as FILE is standard input\n\
    --help   writes this text, if it is the only argument after explain\n\
    --       ends the options: what follows are texts, files or lines\n\
    TEXT     a text; without any, reads standard input\n\
    \n\
    In a terminal, --width is by default COLUMNS of the environment, or 80.\n\
    \n\
    Status: 0 all was written; 'bidi --help' lists the others.\n";

/// Returns the help of a subcommand, or of the program.
pub fn help(subcommand: Option<Subcommand>) -> &'static str {
    match subcommand {
        None => PROGRAM,
        Some(Subcommand::Checking) => CHECK,
        Some(Subcommand::Showing) => SHOW,
        Some(Subcommand::Explaining) => EXPLAIN,
    }
}
