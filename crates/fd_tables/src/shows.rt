//! What a descriptor shows.

ghost use Rattle.std.specs.Prelude.{◌≡◌, true, false, not, Some};
ghost use Rattle.fd_tables.specs.Files.{console_view, file_view};

use crate::open_file::{Descriptor, Object, OpenFile};
use crate::view::{Target, View, Way};

/// The console: its input can be read alone, and its output written.
pub(crate) fn console_view(input: bool, cloexec: bool) -> View
    ensures { result ≡ console_view (record { read = input; write = not input; append = false; cloexec = cloexec }) }
{
    View {
        target: Target::Console,
        way: Way {
            read: input,
            write: !input,
            append: false,
            cloexec,
        },
        at: 0,
    }
}

/// An open file through a descriptor.
pub(crate) fn file_view(descriptor: Descriptor, file: OpenFile) -> View
    ensures { Some result ≡ file_view descriptor (Some file) }
{
    let (target, at) = match file.object {
        Object::File(node) => (Target::Node(node), file.at),
        Object::PipeEnd(id) => (
            Target::Pipe {
                id,
                write: file.write,
            },
            0,
        ),
    };
    View {
        target,
        way: Way {
            read: file.read,
            write: file.write,
            append: file.append,
            cloexec: descriptor.cloexec,
        },
        at,
    }
}
