//! Worked examples. What a call answers is asked by functions for any digest: at one digest what is said of a log takes
//! minutes to prove. So roots are given to these functions.

mod batches;
mod current;
mod sets;
