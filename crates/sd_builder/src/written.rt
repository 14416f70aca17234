//! The written form of a descriptor in a buffer.

ghost use Rattle.std.specs.Prelude.{◌≡◌};
ghost use Rattle.sd_view.specs.Layout.{layout};

use crate::layout::put_layout;
use sd_buffer::SdBuf;
use sd_sink::{Sink, SinkFault};
use sd_view::SdView;

/// Replaces the contents of the buffer by the layout of a descriptor.
///
/// ```
/// let bytes = *b"\x01\0\0\x80\0\0\0\0\0\0\0\0\0\0\0\0\0\0\0\0 and more";
/// let view = read(&bytes).expect(&rt, "a descriptor");
/// let mut buf = SdBuf::new(rt.alloc()).expect(&rt, "memory");
/// write_layout(&view, &mut buf);
/// assert!(rt; buf.bytes() == &bytes[..20]);
/// ```
pub fn write_layout(view: &SdView<'_>, buf: &mut SdBuf)
    ensures { buf.new ≡ layout view.now }
{
    buf.clear();
    let mut sink = BufSink { buf, failures: 0 };
    // There is room for every layout.
    let _ = put_layout(view, &mut sink);
}

// A buffer as a sink.
#[derive(Drop)]
struct BufSink<'a> {
    buf: &'a mut SdBuf,
    failures: u64,
}

impl<'a> Sink for BufSink<'a> {
    ghost use Rattle.std.specs.Prelude.{Some, ◌-◌, length};
    ghost use Rattle.sd_parts.specs.declared.limits.TheConstants.{CAPACITY};

    ghost told = { λ s. record {
      identity = s.buf.ghost_name;
      contents = Some s.buf.now;
      failures = s.failures;
      room = CAPACITY - length s.buf.now;
    } };

    fn put(&mut self, bytes: &[u8]) -> Result<(), SinkFault> {
        match self.buf.extend(bytes) {
            Ok(()) => Ok(()),
            Err(_) => {
                self.failures = self.failures.saturating_add(1);
                Err(SinkFault)
            }
        }
    }
}
