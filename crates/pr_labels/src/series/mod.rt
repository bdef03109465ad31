//! Series texts, and how they are read.
mod examples;
mod found;
mod laws;
mod read;
mod series;

pub use examples::small_series_texts_read_so;
pub use laws::{
    one_byte_decides_series_texts, printed_labels_read_back,
    reading_of_a_series_text_is_a_function, series_text_is_name_and_pairs,
    series_text_reads_as_one_label_set, series_texts_name_labels_once,
};
pub use read::read_series_text;
pub use series::TextFault;
