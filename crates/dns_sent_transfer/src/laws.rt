//! Laws of transfers that are sent.

ghost use Rattle.dns_sent_transfer.specs.SentTransfers.{TransactionsLoseNothing, TransfersAreSentWhole};

use dns_core::replies_keep_their_order;

/// Take a request of an open connection whose replies are all in a transaction. Once it was polled for them, holds none, and
/// nothing waits in the queue, all were sent, in order.
pub fn transactions_lose_nothing()
    ensures { TransactionsLoseNothing }
{
    replies_keep_their_order();
}

/// Of a transfer all replies were sent, in order, once it was polled for them, holds none, and nothing waits in the queue: a full
/// queue loses none.
pub fn transfers_are_sent_whole()
    ensures { TransfersAreSentWhole }
{
    replies_keep_their_order();
}
