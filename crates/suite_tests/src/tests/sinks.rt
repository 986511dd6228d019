//! Hosts that fail, and sinks of which each write fails in turn.
ghost use Rattle.std.specs.Prelude.{◌<◌};

use super::files::ONE_WORD_FLAT;
use super::*;

/// A call over a host that fails at one of its calls: how it ends where no write fails, its two texts, `out` first, and
/// whether it stores the flat file.
struct Call {
    words: &'static [&'static str],
    host_fails: u32,
    status: Status,
    out: &'static str,
    report: &'static str,
    stores: bool,
}

/// A call of the host that none of these comes to.
const NEVER: u32 = 9;

static CALLS: [Call; 8] = [
    // the load fails, the store fails, and neither
    Call {
        words: &["convert", "a.elf", "a.flt"],
        host_fails: 0,
        status: Status::HostRead,
        out: "",
        report: "host: cannot read a.elf\n",
        stores: false,
    },
    Call {
        words: &["convert", "a.elf", "a.flt"],
        host_fails: 1,
        status: Status::HostWrite,
        out: "",
        report: "host: cannot write a.flt\n",
        stores: false,
    },
    Call {
        words: &["convert", "a.elf", "a.flt"],
        host_fails: NEVER,
        status: Status::Done,
        out: "text 64 data 12 bss 0 stack 4096 records 1 entry 128\n",
        report: "",
        stores: true,
    },
    // a file that isn't there, and one without a byte
    Call {
        words: &["convert", "b.elf", "a.flt"],
        host_fails: NEVER,
        status: Status::HostRead,
        out: "",
        report: "host: cannot read b.elf\n",
        stores: false,
    },
    Call {
        words: &["convert", "empty", "a.flt"],
        host_fails: NEVER,
        status: Status::Refused,
        out: "",
        report: "refused: elf 1 Short\n",
        stores: false,
    },
    // the load of the manifest fails, that of its file, and neither
    Call {
        words: &["run", "m", "--log"],
        host_fails: 0,
        status: Status::HostRead,
        out: "",
        report: "host: cannot read m\n",
        stores: false,
    },
    Call {
        words: &["run", "m", "--log"],
        host_fails: 1,
        status: Status::HostRead,
        out: "",
        report: "host: cannot read hi.elf\n",
        stores: false,
    },
    Call {
        words: &["run", "m", "--log"],
        host_fails: NEVER,
        status: Status::Done,
        out: "hi\n",
        report: "load 1 /hi base 0x80000000 pages 2
call 1 64 00000001 800000a4 00000003 00000000 00000000 00000000 = 00000003 sent 68690a got -
call 1 93 00000007 800000a4 00000003 00000000 00000000 00000000 = 00000000 sent - got -
end 1 exit 7
stop done events 9
",
        stores: false,
    },
];

/// How many bytes a sink takes at a time: one, some, and each piece whole.
static MOST: [u32; 3] = [1, 5, u32::MAX];

/// How many writes a text takes.
fn writes_of(text: &str, most: u32) -> usize
    requires { 0 < most }
{
    text.len().div_ceil(most as usize)
}

/// A sink that takes so many bytes at a time, and fails at this write, if there is one.
fn sink_of(alloc: Global, most: u32, fails_at: Option<usize>) -> Result<MemSink, AllocError>
    requires { 0 < most }
{
    let mut sink = MemSink::new(alloc)?;
    sink.take_at_most(most);
    if let Some(fails_at) = fails_at {
        sink.fail_at(u32::try_from(fails_at).unwrap_or(u32::MAX))?;
    }
    Ok(sink)
}

/// Whether a sink has the bytes of a text that so many writes take, and no others.
fn has_taken(sink: &MemSink, text: &str, most: u32, writes: usize) -> bool {
    let taken = writes.saturating_mul(most as usize).min(text.len());
    sink.bytes().len() == taken && text.as_bytes().starts_with(sink.bytes())
}

/// Whether a call ends as it has to where this write of all fails: with what was taken before it, and the flat file stored.
fn is_told(alloc: Global, call: &Call, most: u32, write: usize) -> Result<bool, AllocError>
    requires { 0 < most }
{
    let of_out = writes_of(call.out, most);
    let writes = of_out.saturating_add(writes_of(call.report, most));
    let in_report = write.checked_sub(of_out);
    let mut out = sink_of(alloc, most, Some(write))?;
    let mut report = sink_of(alloc, most, in_report)?;
    let mut host = host_with_files(alloc, MANIFEST)?;
    host.fail_at(call.host_fails)?;
    let status = call_suite(alloc, call.words, &mut host, &mut out, &mut report)?;
    let want = if write < writes {
        Status::SinkWrite
    } else {
        call.status
    };
    let stored = host.get("a.flt");
    Ok(
        status == want
            && has_taken(&out, call.out, most, write)
            && has_taken(&report, call.report, most, in_report.unwrap_or(0))
            && stored.is_some() == call.stores
            && stored.is_none_or(|bytes| bytes == ONE_WORD_FLAT.as_slice()),
    )
}

/// Each write fails in turn, and none.
#[test]
fn all_is_taken_before_the_write_that_fails(rt: HostRuntime) -> Result<(), Fail> {
    for call in &CALLS {
        for most in MOST {
            assert!(rt; most > 0);
            let writes = writes_of(call.out, most).saturating_add(writes_of(call.report, most));
            for write in 0..=writes {
                let holds = is_told(rt.alloc(), call, most, write)?;
                assert!(rt; holds, "{:?}, write {write} of {most} bytes", call.words);
            }
        }
    }
    Ok(())
}
