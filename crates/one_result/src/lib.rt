// The promise of each public call leaves one result. Theorems, no code.
