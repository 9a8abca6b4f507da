//! What a crate above the fold can state of it: the requests for which it stands, as written
//! records.
ghost use Rattle.std.specs.Prelude.{◌≡◌, ◌<◌, ◌∷◌, [], IfOk};
ghost use Rattle.out_fold.specs.Stands.{StandsFor};
ghost use Rattle.test_fold.specs.Requests.{request_of, ready, count_of};

use jcontent::Content;
use jtext::NoMemory;
use out_fold::Fold;
use std::alloc::Global;
use std::test::Fail;

/// A fold whose first cell was begun and told one message.
fn fold_of_one(alloc: Global, cells: u32) -> Result<Fold, NoMemory>
    requires { 0 < cells }
    ensures stands { IfOk result (λ f. StandsFor f (request_of 0 (ready ∷ []) ∷ [])) }
    ensures counts { count_of (request_of 0 (ready ∷ [])) ≡ 1 }
{
    let mut fold = Fold::new(alloc, cells, false)?;
    fold.start(0);
    fold.take(&Content::InfoReply, None)?;
    Ok(fold)
}

#[test]
fn a_fold_stands_for_requests_that_a_caller_writes(rt: HostRuntime) -> Result<(), Fail> {
    let fold = fold_of_one(rt.alloc(), 2)?;
    let is_first = fold.touched().as_slice() == [0u32].as_slice();
    drop(fold);
    assert!(rt; is_first);
    Ok(())
}
