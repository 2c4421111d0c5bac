ghost use Rattle.std.specs.Prelude.{◌≡◌, [], None};
ghost use Rattle.session.specs.Held.{IsReady, number_of, own_of};

use file_disk::Held;
use txn_buf::TxnBuf;

/// One session of a lake: its number, and the transaction that it has open.
#[derive(Drop)]
pub struct Session<F> {
    pub(crate) number: u8,
    pub(crate) open_txn: Option<TxnBuf<F>>,
}

impl<F: Held> Session<F> {
    /// A session with nothing open. It takes no memory.
    pub fn new(number: u8) -> Session<F>
        ensures number { number_of result ≡ number }
        ensures own { own_of result ≡ [] }
        ensures ready { IsReady F.name F.size F.bytes result None }
    {
        Session {
            number,
            open_txn: None,
        }
    }
}
