//! The keys of the objects of a notebook, by the schema of nbformat 4.5.

/// The notebook's own keys, all of them required.
pub(crate) const NOTEBOOK: [&str; 4] = ["metadata", "nbformat", "nbformat_minor", "cells"];

/// The keys that `metadata.kernelspec` has to have.
pub(crate) const KERNELSPEC_REQUIRED: [&str; 2] = ["name", "display_name"];

/// The key that `metadata.language_info` has to have.
pub(crate) const LANGUAGE_INFO_REQUIRED: [&str; 1] = ["name"];

/// The keys that a raw cell and a markdown cell have to have.
pub(crate) const PROSE_CELL_REQUIRED: [&str; 4] = ["cell_type", "id", "metadata", "source"];

/// The keys that a raw cell and a markdown cell may have.
pub(crate) const PROSE_CELL: [&str; 5] = ["cell_type", "id", "metadata", "source", "attachments"];

/// The keys of a code cell, all of them required.
pub(crate) const CODE_CELL: [&str; 6] = [
    "cell_type",
    "id",
    "metadata",
    "source",
    "outputs",
    "execution_count",
];

/// The keys of a `stream`, all of them required.
pub(crate) const STREAM: [&str; 3] = ["output_type", "name", "text"];

/// Those that are looked for once the type is known.
pub(crate) const STREAM_REQUIRED: [&str; 2] = ["name", "text"];

/// The keys of `display_data`, all of them required.
pub(crate) const DISPLAY: [&str; 3] = ["output_type", "data", "metadata"];

/// Those that are looked for once the type is known.
pub(crate) const DISPLAY_REQUIRED: [&str; 2] = ["data", "metadata"];

/// The keys of an `execute_result`, all of them required.
pub(crate) const RESULT: [&str; 4] = ["output_type", "data", "metadata", "execution_count"];

/// Those that are looked for once the type is known.
pub(crate) const RESULT_REQUIRED: [&str; 3] = ["data", "metadata", "execution_count"];

/// The keys of an `error`, all of them required.
pub(crate) const ERROR: [&str; 4] = ["output_type", "ename", "evalue", "traceback"];

/// Those that are looked for once the type is known.
pub(crate) const ERROR_REQUIRED: [&str; 3] = ["ename", "evalue", "traceback"];
