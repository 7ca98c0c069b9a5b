//! What stands in a table.

use df_model::Bin;

/// A key with what it holds. Its bucket knows whether it is staged.
#[derive(Drop)]
pub struct Entry<V> {
    pub key: Bin,
    pub value: V,
}
