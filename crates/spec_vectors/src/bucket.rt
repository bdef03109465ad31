use pr_num::Num;

/// A bucket of a histogram. (Prometheus: Histograms and summaries.)
#[derive(Clone, Copy, Debug, Drop)]
pub struct Bucket {
    /// The upper bound, which belongs to the bucket.
    pub bound: Num,
    /// How many observations are at most the bound.
    pub count: Num,
}
