//! Notebooks that tests of several crates read, and what is to be saved of them: as Python's `json`
//! writes it with sorted keys and an indent of one space.
/// A notebook without cells.
pub const EMPTY: &str = r#"{"cells":[],"metadata":{},"nbformat":4,"nbformat_minor":5}"#;

/// It as it is saved.
pub const EMPTY_SAVED: &str = r#"{
 "cells": [],
 "metadata": {},
 "nbformat": 4,
 "nbformat_minor": 5
}
"#;

/// A notebook of two cells: `print 1` and `result 2`.
pub const TWO: &str =
    r#"{"cells":[{"cell_type":"code","execution_count":null,"id":"a","metadata":{},"outputs":[],"source":"print 1"},{"cell_type":"code","execution_count":7,"id":"b","metadata":{},"outputs":[],"source":["result 2"]}],"metadata":{"kernelspec":{"display_name":"Toy","name":"toy"}},"nbformat":4,"nbformat_minor":5}"#;

/// It as it is saved once a toy kernel has executed it, with the date 2000-01-01 in each message.
pub const TWO_SAVED: &str = r#"{
 "cells": [
  {
   "cell_type": "code",
   "execution_count": 1,
   "id": "a",
   "metadata": {
    "execution": {
     "iopub.execute_input": "2000-01-01T00:00:00.000Z",
     "iopub.status.busy": "2000-01-01T00:00:00.000Z",
     "iopub.status.idle": "2000-01-01T00:00:00.000Z",
     "shell.execute_reply": "2000-01-01T00:00:00.000Z"
    },
    "papermill": {
     "exception": false,
     "status": "completed"
    }
   },
   "outputs": [
    {
     "name": "stdout",
     "output_type": "stream",
     "text": [
      "1\n"
     ]
    }
   ],
   "source": "print 1"
  },
  {
   "cell_type": "code",
   "execution_count": 2,
   "id": "b",
   "metadata": {
    "execution": {
     "iopub.execute_input": "2000-01-01T00:00:00.000Z",
     "iopub.status.busy": "2000-01-01T00:00:00.000Z",
     "iopub.status.idle": "2000-01-01T00:00:00.000Z",
     "shell.execute_reply": "2000-01-01T00:00:00.000Z"
    },
    "papermill": {
     "exception": false,
     "status": "completed"
    }
   },
   "outputs": [
    {
     "data": {
      "text/plain": [
       "2"
      ]
     },
     "execution_count": 2,
     "metadata": {},
     "output_type": "execute_result"
    }
   ],
   "source": [
    "result 2"
   ]
  }
 ],
 "metadata": {
  "kernelspec": {
   "display_name": "Toy",
   "name": "toy"
  },
  "papermill": {
   "exception": null
  }
 },
 "nbformat": 4,
 "nbformat_minor": 5
}
"#;

/// A notebook with a cell of defaults.
pub const DEFAULTS: &str =
    r#"{"cells":[{"cell_type":"code","execution_count":null,"id":"a","metadata":{"tags":["parameters"]},"outputs":[],"source":["a = 0"]}],"metadata":{},"nbformat":4,"nbformat_minor":5}"#;

/// It as it is saved with `a` as a number, `b` as a raw text and `c` as a word of Python.
pub const DEFAULTS_SAVED: &str = r##"{
 "cells": [
  {
   "cell_type": "code",
   "execution_count": null,
   "id": "a",
   "metadata": {
    "tags": [
     "parameters"
    ]
   },
   "outputs": [],
   "source": [
    "a = 0"
   ]
  },
  {
   "cell_type": "code",
   "execution_count": null,
   "id": "injected-parameters",
   "metadata": {
    "tags": [
     "injected-parameters"
    ]
   },
   "outputs": [],
   "source": [
    "# Parameters\n",
    "a = 1e2\n",
    "b = \"007\"\n",
    "c = True\n"
   ]
  }
 ],
 "metadata": {
  "papermill": {
   "parameters": {
    "a": 1e2,
    "b": "007",
    "c": true
   }
  }
 },
 "nbformat": 4,
 "nbformat_minor": 5
}
"##;

/// As JupyterLab saves it, but for the order of keys: a markdown cell, and a code cell with a picture.
pub const LAB: &str = r##"{
 "cells": [
  {
   "cell_type": "markdown",
   "id": "5ad6f3b2-9d55-4b0c-8b3f-3a1f0b1f7c11",
   "metadata": {},
   "source": [
    "# Title\n",
    "text"
   ]
  },
  {
   "cell_type": "code",
   "execution_count": 3,
   "id": "0c1b7e0e-93f1-4c5c-a7ad-0d5b8a1a2f6c",
   "metadata": {
    "tags": [
     "parameters",
     "skip-execution"
    ]
   },
   "outputs": [
    {
     "data": {
      "image/png": "iVBORw0KGgo=\n",
      "text/plain": [
       "<Figure size 640x480>"
      ]
     },
     "execution_count": 3,
     "metadata": {},
     "output_type": "execute_result"
    }
   ],
   "source": [
    "a = 1\n",
    "plot(a)"
   ]
  }
 ],
 "metadata": {
  "kernelspec": {
   "display_name": "Python 3 (ipykernel)",
   "language": "python",
   "name": "python3"
  },
  "language_info": {
   "codemirror_mode": {
    "name": "ipython",
    "version": 3
   },
   "file_extension": ".py",
   "mimetype": "text/x-python",
   "name": "python",
   "nbconvert_exporter": "python",
   "pygments_lexer": "ipython3",
   "version": "3.11.7"
  }
 },
 "nbformat": 4,
 "nbformat_minor": 5
}
"##;
