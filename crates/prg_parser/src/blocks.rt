//! Which lines may stand where: blocks that are open, and what a line does to them.

ghost use Rattle.std.specs.Prelude.{◌≡◌, ◌<◌, ◌++◌, ◌∷◌, [], None, option_map};
ghost use Rattle.std.specs.List.{list_any};
ghost use Rattle.arrayvec.specs.ArrayVec.{array_vec_len};
ghost use Rattle.prg_parser.specs.Blocks as spec;

use arrayvec::ArrayVec;
use prg_expr::ParseFaultKind;
use prg_line::Role;

/// The most blocks that may stand within each other.
pub const MOST_BLOCKS: usize = 32;

/// The part of an open block in which the next line stands.
#[derive(Clone, Copy, Default)]
pub enum Place {
    /// Behind `IF`.
    #[default]
    InThen,
    /// Behind `ELSE`.
    InElse,
    /// Behind `DO CASE`, before its first `CASE`.
    BeforeCases,
    /// Behind a `CASE`.
    InCase,
    /// Behind `OTHERWISE`.
    InOtherwise,
    /// Behind `DO WHILE`.
    InWhile,
    /// Behind `SCAN`.
    InScan,
}

/// The innermost part of an open block, and the line that opened the block.
#[derive(Clone, Copy, Default)]
pub struct Part {
    /// Where the next line stands.
    pub place: Place,
    /// The line that opened the block, from 1.
    pub line: usize,
}

/// The parts of the open blocks, from the outermost block on.
pub type OpenParts = ArrayVec<Part, MOST_BLOCKS>;

/// Whether commands may stand in this part, or outside all blocks.
fn holds_commands(inner: Option<Place>) -> bool
    ensures { result ≡ spec.holds_commands inner }
{
    !matches!(inner, Some(Place::BeforeCases))
}

/// Whether a line may stand in this part, or outside all blocks.
fn may_stand(role: Role, inner: Option<Place>) -> bool
    ensures { result ≡ spec.may_stand role inner }
{
    match role {
        Role::Nothing | Role::Procedure => true,
        Role::Plain | Role::Leap | Role::If | Role::DoCase | Role::DoWhile | Role::Scan => {
            holds_commands(inner)
        }
        Role::Else => matches!(inner, Some(Place::InThen)),
        Role::EndIf => matches!(inner, Some(Place::InThen | Place::InElse)),
        Role::Case | Role::Otherwise => matches!(inner, Some(Place::BeforeCases | Place::InCase)),
        Role::EndCase => matches!(
            inner,
            Some(Place::BeforeCases | Place::InCase | Place::InOtherwise)
        ),
        Role::EndDo => matches!(inner, Some(Place::InWhile)),
        Role::EndScan => matches!(inner, Some(Place::InScan)),
    }
}

/// Whether the part is a loop's.
fn is_loop(place: Place) -> bool
    ensures { result ≡ spec.is_loop place }
{
    matches!(place, Place::InWhile | Place::InScan)
}

/// The part behind a line that opens a block.
pub fn opened(role: Role) -> Option<Place>
    ensures { result ≡ spec.place_opened role }
{
    match role {
        Role::If => Some(Place::InThen),
        Role::DoCase => Some(Place::BeforeCases),
        Role::DoWhile => Some(Place::InWhile),
        Role::Scan => Some(Place::InScan),
        _ => None,
    }
}

/// Whether a loop is among the open blocks.
fn is_in_loop(parts: &[Part]) -> bool
    ensures { result ≡ list_any (λ part. spec.is_loop part.place) parts.now }
{
    parts.iter().any(|part| is_loop(part.place))
}

/// Where the next line stands, if a block is open.
fn innermost(parts: &[Part]) -> Option<Place>
    ensures { result ≡ option_map (λ part. part.place) (spec.innermost parts.now) }
{
    match parts.last() {
        Some(part) => Some(part.place),
        None => None,
    }
}

/// What is wrong with a line where these blocks are open, from the outermost on: Block where it doesn't fit its place,
/// TooDeep where it opens a 33rd block.
#[tactic(auto, unfolding(crate::specs::Blocks::fault_of_place))]
pub fn block_fault(parts: &[Part], role: Role) -> Option<ParseFaultKind>
    ensures { result ≡ spec.fault_of_place parts.now role }
{
    if !may_stand(role, innermost(parts)) {
        return Some(ParseFaultKind::Block);
    }
    if is_leap(role) && !is_in_loop(parts) {
        return Some(ParseFaultKind::Block);
    }
    if opened(role).is_some() && parts.len() >= MOST_BLOCKS {
        return Some(ParseFaultKind::TooDeep);
    }
    None
}

/// Whether the line ends a block.
pub fn is_end(role: Role) -> bool
    ensures { result ≡ spec.ends_block role }
{
    matches!(
        role,
        Role::EndIf | Role::EndCase | Role::EndDo | Role::EndScan
    )
}

/// Whether the line is `LOOP` or `EXIT`.
fn is_leap(role: Role) -> bool
    ensures { result ≡ spec.is_leap role }
{
    matches!(role, Role::Leap)
}

/// Goes on to another part of the innermost block.
fn divide(parts: &mut OpenParts, place: Place)
    ensures { parts.new.items ≡ spec.divide_at parts.old.items (spec.innermost parts.old.items) place }
{
    let Some(part) = parts.as_slice().last().copied() else {
        return;
    };
    let _ = parts.pop();
    parts.push(Part {
        place,
        line: part.line,
    });
}

/// What is open behind a line that has no fault there.
#[tactic(auto, unfolding(crate::specs::Blocks::fault_of_place, crate::specs::Blocks::parts_after))]
pub fn enter(parts: &mut OpenParts, line: usize, role: Role)
    requires { spec.fault_of_place parts.old.items role ≡ None }
    ensures { parts.new.items ≡ spec.parts_after parts.old.items line role }
{
    match role {
        Role::Procedure => parts.clear(),
        Role::EndIf | Role::EndCase | Role::EndDo | Role::EndScan => {
            let _ = parts.pop();
        }
        Role::Else => divide(parts, Place::InElse),
        Role::Case => divide(parts, Place::InCase),
        Role::Otherwise => divide(parts, Place::InOtherwise),
        Role::If => open(parts, line, Place::InThen),
        Role::DoCase => open(parts, line, Place::BeforeCases),
        Role::DoWhile => open(parts, line, Place::InWhile),
        Role::Scan => open(parts, line, Place::InScan),
        Role::Nothing | Role::Plain | Role::Leap => {}
    }
}

/// Opens a block in this line.
pub fn open(parts: &mut OpenParts, line: usize, place: Place)
    requires { array_vec_len parts.old < 32 }
    ensures { parts.new.items ≡ parts.old.items ++ (record { place = place; line = line }) ∷ [] }
{
    parts.push(Part { place, line });
}
