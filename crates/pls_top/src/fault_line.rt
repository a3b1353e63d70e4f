//! The line of a fault of an instance, without memory.

ghost use Rattle.std.specs.Prelude.{◌≡◌, ◌≤◌, IfSome, IfNone, length};
ghost use Rattle.pls_top.specs.Due.{fault_name, fault_place, instance_line};

use arrayvec::ArrayString;
use itoa::Buffer;
use pls_problem::BadInstance;

/// Room for the longest line.
const LONGEST: usize = 64;

/// The line of a fault, with its kind and its place, or None for want of memory, which is no fault of the
/// text.
pub fn fault_line(fault: BadInstance) -> Option<ArrayString<LONGEST>>
    ensures line { IfSome result (λ line. line.bytes ≡ instance_line fault) }
    ensures none { IfNone result (fault ≡ BadInstance.Memory) }
    ensures some { IfSome result (λ line. fault ≡ BadInstance.Memory → ⊥) }
{
    let (name, place) = name_and_place(fault)?;
    let mut digits = Buffer::new();
    let mut line = ArrayString::new();
    line.push_str("error instance ");
    line.push_str(name);
    line.push_str(" ");
    line.push_str(digits.format(place));
    line.push_str("\n");
    Some(line)
}

/// What a fault is called, and the byte offset at which it is.
fn name_and_place(fault: BadInstance) -> Option<(&'static str, u32)>
    ensures name { IfSome result (λ found. found.0.now ≡ fault_name fault) }
    ensures place { IfSome result (λ found. found.1 ≡ fault_place fault) }
    ensures short { IfSome result (λ found. length found.0.now ≤ 5) }
    ensures none { IfNone result (fault ≡ BadInstance.Memory) }
    ensures some { IfSome result (λ found. fault ≡ BadInstance.Memory → ⊥) }
{
    match fault {
        BadInstance::Head(place) => Some(("head", place)),
        BadInstance::Short(place) => Some(("short", place)),
        BadInstance::Word(place) => Some(("word", place)),
        BadInstance::Range(place) => Some(("range", place)),
        BadInstance::Extra(place) => Some(("extra", place)),
        BadInstance::Shape(place) => Some(("shape", place)),
        BadInstance::Memory => None,
    }
}
