//! Laws of the messages that are kept. The functions change nothing: their contracts are the laws.
ghost use Rattle.std.specs.Prelude.{ℕ, List, [], ◌∷◌, ◌++◌, Option};
ghost use Rattle.jcontent.specs.declared.content.Content as content;
ghost use Rattle.jcontent.specs.IsRead.{IsRead};
ghost use Rattle.out_fold.specs.Cells.{begin, with_message, with_reply};
ghost use Rattle.out_fold.specs.declared.used.Used.{Used};
ghost use Rattle.out_fold.specs.Fit.{AreRead};

/// Where all contents were read of messages, so they are after a cell's begin, with one more
/// message of the last request whose content was read, and after a reply.
pub fn contents_stay_read()
    ensures begun { (us : List Used) (cell : ℕ) → AreRead us → AreRead (us ++ begin cell ∷ []) }
    ensures used { (us : List Used) (u : Used) (c : content.Content) (date : Option (List ℕ)) →
        IsRead c → AreRead (us ++ u ∷ []) → AreRead (us ++ with_message u c date ∷ []) }
    ensures replied { (us : List Used) (u : Used) (date : Option (List ℕ)) →
        AreRead (us ++ u ∷ []) → AreRead (us ++ with_reply u date ∷ []) }
    ensures none { AreRead [] }
{}
