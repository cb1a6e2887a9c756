//! Laws of transfers.

ghost use Rattle.dns_transfer.specs.Transfers.{SmallTransfersFit, TransactionsEnd, TransfersAreTransactions, TransfersAreWhole, TransfersFit};

/// The answer records of the replies of a transfer, joined.
#[tactic(auto, using(crate::proofs::TransferLaws::transfers_are_whole))]
pub fn transfers_are_whole()
    ensures { TransfersAreWhole }
{}

/// Each reply fits.
pub fn transfers_fit()
    ensures { TransfersFit }
{}

/// If no record takes more than 65,000 octets, each reply of a transfer that is asked for by one question fits a message.
#[tactic(auto, using(crate::proofs::TransferLaws::small_transfers_fit))]
pub fn small_transfers_fit()
    ensures { SmallTransfersFit }
{}

/// Each reply of a transfer is queued in its transaction, which ends after the last one.
pub fn transfers_are_transactions()
    ensures within { TransfersAreTransactions }
    ensures end { TransactionsEnd }
{}
