// The theorems of the whole, over every history of calls: no code.
