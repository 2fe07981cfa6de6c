// The third promise: columns that come of one list of values and nulls show it, compare as it, and are bounded when compacted. Beside it what every
// builder call keeps, and that every block's number fits in its view.
#![tactic(auto)]
