ghost use Rattle.std.specs.Prelude.{◌≡◌};
ghost use Rattle.irl_robots.specs.Status.{class_of};

use crate::answer::Class;

/// The class of a status. It takes no memory.
pub fn class(status: u16) -> Class
    ensures { result ≡ class_of status }
{
    match status {
        200..=299 => Class::Rules,
        301 | 302 | 303 | 307 | 308 => Class::Moved,
        500..=599 => Class::Shut,
        _ => Class::Free,
    }
}
