ghost use Rattle.std.specs.Prelude.{◌≡◌, ◌&&◌};
ghost use Rattle.lk_include.specs.Patterns.{some_end, matches_name, is_any_folders, ends_free, matches_names, covers};
ghost use Rattle.lk_include.specs.Fitting.{name_fit, name_fit_of, names_fit, names_fit_of};

use lk_val::Bytes;

/// How far a pattern fits a name from its front.
enum NameFit<'a> {
    /// All of it fits all of the name.
    Whole,
    /// It does not fit.
    Not,
    /// It fits up to its first `*`. What is behind that, and the rest of the name.
    UpTo(&'a [u8], &'a [u8]),
}

/// How far a pattern's names fit those of a path from the front.
enum NamesFit<'a> {
    /// All of them fit all of the path.
    Whole,
    /// They do not fit.
    Not,
    /// They fit up to the first `**`. What is behind that, and the rest of the path.
    UpTo(&'a [Bytes], &'a [Bytes]),
}

/// Whether a name matches a pattern, in which `*` stands for any bytes. At most as many steps as the product of both
/// lengths. (Looker, LookML reference: include)
pub fn matches_name(pattern: &[u8], name: &[u8]) -> bool
    ensures { result ≡ matches_name pattern.now name.now }
{
    match name_fit(pattern, name) {
        NameFit::Whole => true,
        NameFit::Not => false,
        NameFit::UpTo(rest, behind) => matches_end_of_name(rest, behind),
    }
}

// Whether a pattern matches some end of a name. The first place at which it fits up to a `*` is the best one, so no
// earlier place is tried again.
fn matches_end_of_name(pattern: &[u8], name: &[u8]) -> bool
    ensures { result ≡ some_end (matches_name pattern.now) name.now }
{
    let mut left = pattern;
    let mut rest = name;
    loop {
        match name_fit(left, rest) {
            NameFit::Whole => return true,
            NameFit::UpTo(further, behind) => {
                left = further;
                rest = behind;
            }
            NameFit::Not => match rest.split_first() {
                None => return false,
                Some((_, behind)) => rest = behind,
            },
        }
    }
}

fn name_fit<'a>(pattern: &'a [u8], name: &'a [u8]) -> NameFit<'a>
    ensures { name_fit_of result ≡ name_fit pattern.now name.now }
{
    let mut left = pattern;
    let mut rest = name;
    while let Some((piece, further)) = left.split_first() {
        if *piece == b'*' {
            return NameFit::UpTo(further, rest);
        }
        let Some((first, behind)) = rest.split_first() else {
            return NameFit::Not;
        };
        if *piece != *first {
            return NameFit::Not;
        }
        left = further;
        rest = behind;
    }
    if rest.is_empty() {
        NameFit::Whole
    } else {
        NameFit::Not
    }
}

/// Whether a path's names match those of a pattern: each name by itself, `**` for any number of folders, none too, and
/// never for the file.
pub fn matches_names(pattern: &[Bytes], names: &[Bytes]) -> bool
    ensures { result ≡ matches_names pattern.now names.now }
{
    !ends_free(pattern) && covers(pattern, names)
}

fn covers(pattern: &[Bytes], names: &[Bytes]) -> bool
    ensures { result ≡ covers is_any_folders matches_name pattern.now names.now }
{
    match names_fit(pattern, names) {
        NamesFit::Whole => true,
        NamesFit::Not => false,
        NamesFit::UpTo(rest, behind) => covers_end_of_names(rest, behind),
    }
}

// Whether a pattern covers some end of the names.
fn covers_end_of_names(pattern: &[Bytes], names: &[Bytes]) -> bool
    ensures { result ≡ some_end (covers is_any_folders matches_name pattern.now) names.now }
{
    let mut left = pattern;
    let mut rest = names;
    loop {
        match names_fit(left, rest) {
            NamesFit::Whole => return true,
            NamesFit::UpTo(further, behind) => {
                left = further;
                rest = behind;
            }
            NamesFit::Not => match rest.split_first() {
                None => return false,
                Some((_, behind)) => rest = behind,
            },
        }
    }
}

fn names_fit<'a>(pattern: &'a [Bytes], names: &'a [Bytes]) -> NamesFit<'a>
    ensures { names_fit_of result ≡ names_fit pattern.now names.now }
{
    let mut left = pattern;
    let mut rest = names;
    while let Some((piece, further)) = left.split_first() {
        if is_any_folders(piece) {
            return NamesFit::UpTo(further, rest);
        }
        let Some((first, behind)) = rest.split_first() else {
            return NamesFit::Not;
        };
        if !matches_name(piece.as_slice(), first.as_slice()) {
            return NamesFit::Not;
        }
        left = further;
        rest = behind;
    }
    if rest.is_empty() {
        NamesFit::Whole
    } else {
        NamesFit::Not
    }
}

fn is_any_folders(name: &Bytes) -> bool
    ensures { result ≡ is_any_folders name.now }
{
    name.as_slice() == b"**".as_slice()
}

// Whether the last of the names is `**`.
fn ends_free(names: &[Bytes]) -> bool
    ensures { result ≡ ends_free names.now }
{
    let mut free = false;
    for name in names {
        free = is_any_folders(name);
    }
    free
}
