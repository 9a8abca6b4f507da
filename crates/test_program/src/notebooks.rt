//! Notebooks and what is saved of them, as python3's `json` writes them with sorted keys and an indent of one space.

/// A notebook that parameters were injected into before, whose ids are taken.
pub(super) const INJECTED: &str =
    r##"{"cells": [{"cell_type": "code", "execution_count": null, "id": "q", "metadata": {"tags": ["injected-parameters"]}, "outputs": [], "source": ["x"]}, {"cell_type": "code", "execution_count": null, "id": "injected-parameters", "metadata": {}, "outputs": [], "source": ["x"]}, {"cell_type": "code", "execution_count": null, "id": "injected-parameters-1", "metadata": {}, "outputs": [], "source": ["x"]}], "metadata": {}, "nbformat": 4, "nbformat_minor": 5}"##;

/// With `a` injected again.
pub(super) const INJECTED_SAVED: &str = r##"{
 "cells": [
  {
   "cell_type": "code",
   "execution_count": null,
   "id": "injected-parameters-2",
   "metadata": {
    "tags": [
     "injected-parameters"
    ]
   },
   "outputs": [],
   "source": [
    "# Parameters\n",
    "a = 1\n"
   ]
  },
  {
   "cell_type": "code",
   "execution_count": null,
   "id": "injected-parameters",
   "metadata": {},
   "outputs": [],
   "source": [
    "x"
   ]
  },
  {
   "cell_type": "code",
   "execution_count": null,
   "id": "injected-parameters-1",
   "metadata": {},
   "outputs": [],
   "source": [
    "x"
   ]
  }
 ],
 "metadata": {
  "papermill": {
   "parameters": {
    "a": 1
   }
  }
 },
 "nbformat": 4,
 "nbformat_minor": 5
}
"##;

/// A notebook of nbformat 4.2.
pub(super) const OLD: &str =
    r##"{"cells": [{"cell_type": "markdown", "metadata": {}, "source": "x"}, {"cell_type": "code", "execution_count": null, "metadata": {}, "outputs": [], "source": "y"}], "metadata": {}, "nbformat": 4, "nbformat_minor": 2}"##;

/// It as a report.
pub(super) const OLD_REPORT: &str = r##"{
 "cells": [
  {
   "cell_type": "markdown",
   "id": "cell-0",
   "metadata": {},
   "source": "x"
  },
  {
   "cell_type": "code",
   "execution_count": null,
   "id": "cell-1",
   "metadata": {
    "jupyter": {
     "source_hidden": true
    }
   },
   "outputs": [],
   "source": "y"
  }
 ],
 "metadata": {},
 "nbformat": 4,
 "nbformat_minor": 5
}
"##;
