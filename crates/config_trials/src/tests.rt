// Plan files, words and storms.

mod plan_files;
mod storms;
mod words;
mod work;
