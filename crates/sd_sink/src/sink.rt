//! Where printed text goes.

ghost use Rattle.sd_sink.specs.Sink.{SinkTold, Puts};

/// The sink did not accept all of the bytes.
#[derive(Clone, Copy, Debug, PartialEq, Eq)]
pub struct SinkFault;

/// Where printed bytes and texts go.
///
/// This one keeps what it is given. The examples of this library put their texts into it:
///
/// ```
/// use std::process::Abort;
///
/// #[derive(Drop)]
/// struct TextSink {
///     text: TextBuf,
///     failures: u64,
/// }
///
/// impl TextSink {
///     fn new(rt: &(impl Abort + AllocGlobal)) -> TextSink {
///         TextSink {
///             text: TextBuf::new(rt.alloc()).expect(rt, "memory"),
///             failures: 0,
///         }
///     }
///
///     fn bytes(&self) -> &[u8] {
///         self.text.bytes()
///     }
/// }
///
/// impl Sink for TextSink {
///     ghost use Rattle.std.specs.Prelude.{Some};
///
///     ghost told = { λ s. record { identity = 0; contents = Some s.text; failures = s.failures; room = 0 } };
///
///     fn put(&mut self, bytes: &[u8]) -> Result<(), SinkFault> {
///         match self.text.extend(bytes) {
///             Ok(()) => Ok(()),
///             Err(_) => {
///                 self.failures = self.failures.saturating_add(1);
///                 Err(SinkFault)
///             }
///         }
///     }
/// }
/// ```
pub trait Sink {
    /// Which reference it writes through, what was appended so far, how many calls failed, and how many bytes it takes
    /// for certain.
    ghost told: { Self → SinkTold };

    /// Appends all bytes. On `Err` a prefix was appended, and the count of failures rises by one. Do not call it again
    /// after a failure.
    fn put(&mut self, bytes: &[u8]) -> Result<(), SinkFault>
        ensures { Puts (told self.old) (told self.new) bytes.now result };
}
