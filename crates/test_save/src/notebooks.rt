//! A notebook of two cells, as it is before a run and in the saves of one.
use jtext::read;
use nb_model::{Notebook, of_json, prepare};
use out_fold::Fold;
use progress_save::{Step, settle};
use samples::notebooks::TWO;
use std::alloc::Global;
use std::test::Fail;

/// The notebook prepared.
pub(crate) fn prepared(rt: &HostRuntime) -> Result<Notebook, Fail> {
    let alloc = rt.alloc();
    let tree = read(alloc, TWO.as_bytes(), 128)?;
    Ok(prepare(alloc, of_json(alloc, tree)?)?)
}

/// The notebook of a run that stopped at its first cell.
pub(crate) fn stopped(rt: &HostRuntime) -> Result<Notebook, Fail> {
    let mut notebook = prepared(rt)?;
    match stop(rt.alloc(), &mut notebook) {
        Ok(()) => Ok(notebook),
        Err(fail) => {
            drop(notebook);
            Err(fail)
        }
    }
}

/// Settles the first cell of two, at which the run stopped.
fn stop(alloc: Global, n: &mut Notebook) -> Result<(), Fail> {
    if n.cells.len() != 2 {
        return Err("another notebook".into());
    }
    let mut fold = Fold::new(alloc, 2, false)?;
    fold.start(0);
    let first = Step {
        from: 0,
        to: 1,
        stop: Some(0),
    };
    let end = settle(alloc, n, &fold, first);
    drop(fold);
    Ok(end?)
}

/// The first cell is settled, and the run stopped at it; the second waits.
pub(crate) const STOPPED: &str = r#"{
 "cells": [
  {
   "cell_type": "code",
   "execution_count": null,
   "id": "a",
   "metadata": {
    "execution": {},
    "papermill": {
     "exception": true,
     "status": "failed"
    }
   },
   "outputs": [],
   "source": "print 1"
  },
  {
   "cell_type": "code",
   "execution_count": null,
   "id": "b",
   "metadata": {
    "papermill": {
     "exception": null,
     "status": "pending"
    }
   },
   "outputs": [],
   "source": [
    "result 2"
   ]
  }
 ],
 "metadata": {
  "kernelspec": {
   "display_name": "Toy",
   "name": "toy"
  },
  "papermill": {
   "exception": true
  }
 },
 "nbformat": 4,
 "nbformat_minor": 5
}
"#;
