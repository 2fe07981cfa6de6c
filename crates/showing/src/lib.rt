// What rows show: views over growing blocks, and buffers of any content that rows, bits, bytes and blocks are stored into. Laws alone.
#![tactic(auto)]
