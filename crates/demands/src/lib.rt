// The three demands, and what the requests ask of a call, as statements over the promises of the public entries. The code only calls each entry
// and says what is concluded of that call, so that an entry whose contract promises less fails here.
#![tactic(auto)]

mod entries;
mod linked;
