//! What follows of the model's definitions: what a checkpoint froze stays, the worlds that a volume has, the tree rule.
#![tactic(auto)]

mod laws;

pub use laws::{
    changes_apply, frozen_maps_agree, frozen_maps_last, frozen_maps_stay, trees_stay, worlds_stay,
};
